//! A site: its gateway, devices, tags and what it serves.
ghost use Rattle.std.specs.Prelude.{◌≡◌, map};
ghost use Rattle.site_model.specs.Companions.{companions_of};
ghost use Rattle.site_model.specs.TagView.{tag_view};
ghost use Rattle.site_model.specs.Wants.{outs_of, wants_of};

use crate::device::SiteDevice;
use crate::served::Served;
use crate::tag::SiteTag;
use crate::want::Want;
use model_defs::ModelDef;
use point_types::Items;

/// A site: the gateway with its models, the devices behind it, the tags over both, and what the gateway serves.
#[derive(Debug, Drop)]
pub struct Site {
    pub(crate) unit: u8,
    pub(crate) base: u16,
    pub(crate) models: Items<ModelDef>,
    pub(crate) devices: Items<SiteDevice>,
    pub(crate) tags: Items<SiteTag>,
    pub(crate) served: Items<Served>,
    /// For each tag the number of the `out` tag without which it isn't written.
    pub(crate) companions: Items<Option<usize>>,
    pub(crate) wants: Items<Want>,
    pub(crate) outs: Items<usize>,
    pub(crate) lengths: Items<(u16, u16)>,
    pub ghost wanted: { wants ≡ wants_of tags },
    pub ghost written: { outs ≡ outs_of tags },
    pub ghost paired: { companions ≡ companions_of (map tag_view tags) },
}

impl Site {
    /// The gateway's unit.
    pub fn unit(&self) -> u8
        ensures { result ≡ self.now.unit }
    {
        self.unit
    }

    /// The address of the gateway's mark, in 0..65534.
    pub fn base(&self) -> u16
        ensures { result ≡ self.now.base }
    {
        self.base
    }

    /// The definitions of the gateway's models, in the order of its map; model 1 is the first.
    pub fn models(&self) -> &[ModelDef]
        ensures { result.now ≡ self.now.models }
    {
        self.models.as_slice()
    }

    /// The devices, in the order of the file.
    pub fn devices(&self) -> &[SiteDevice]
        ensures { result.now ≡ self.now.devices }
    {
        self.devices.as_slice()
    }

    /// The tags, in the order of the file.
    pub fn tags(&self) -> &[SiteTag]
        ensures { result.now ≡ self.now.tags }
    {
        self.tags.as_slice()
    }

    /// The points that are served with a value of the file's, in its order.
    pub fn served(&self) -> &[Served]
        ensures { result.now ≡ self.now.served }
    {
        self.served.as_slice()
    }
}
