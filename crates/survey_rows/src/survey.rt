//! What a survey is of.
use crate::handed_defs::HandedDefs;
use model_defs::ModelDef;
use service::{Identity, Service};
use service_texts::Addresses;
use site_model::Site;

/// What a survey is of: a service that scanned the site as it is asked, and what the site file says.
#[derive(Clone, Copy)]
pub struct Survey<'a> {
    /// The service; its tags begin with those of the site file, in order.
    pub service: &'a Service,
    /// The site as its file has it.
    pub site: &'a Site,
    /// The definitions of models; of several of one ID the last one counts.
    pub models: &'a [ModelDef],
    /// The definitions of them that are handed in.
    pub handed: &'a HandedDefs,
    /// Where the devices are.
    pub addresses: &'a Addresses,
    /// What each device must say of itself by its file, in their order.
    pub identities: &'a [Option<Identity>],
    /// The period of `serve` that the site is to have, in milliseconds.
    pub every: u32,
}
