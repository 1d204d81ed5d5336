//! What the site file says to a service alone.
use crate::serve::refusing::{
    tell_no_hours, tell_no_identities, tell_no_name, tell_no_powers, tell_no_read_back,
};
use file_keys::TomlFile;
use point_types::Items;
use service::Identity;
use service_texts::{
    DeviceSource, identities_of, rated_powers, read_back_tags, site_name, sleeping_hours,
};
use site_model::Site;
use std::alloc::Global;
use std::io::Write;

/// What a site file says to a service alone.
#[derive(Drop)]
pub(crate) struct ServedKeys {
    /// For how many hours each device sleeps.
    pub hours: Items<Option<u8>>,
    /// For how much power each device is made, in watts.
    pub powers: Items<Option<u32>>,
    /// Of each tag, whether what its device shows is compared.
    pub read_back: Items<bool>,
    /// What each device must say of itself.
    identities: Items<Option<Identity>>,
}

impl ServedKeys {
    /// Those of the site's file; or the status, once it is told what is wrong with one of them.
    pub(crate) fn of<R: Print + Eprint + AllocGlobal, W: Write>(
        rt: &R,
        alloc: Global,
        file: &TomlFile<'_>,
        site: &Site,
        out: &mut W,
    ) -> Result<ServedKeys, u8> {
        let hours = match sleeping_hours(alloc, file) {
            Ok(hours) => hours,
            Err(fault) => return Err(tell_no_hours(rt, alloc, site, fault, out)),
        };
        let powers = match rated_powers(alloc, file) {
            Ok(powers) => powers,
            Err(fault) => return Err(tell_no_powers(rt, alloc, site, fault, out)),
        };
        let read_back = match read_back_tags(alloc, file) {
            Ok(read_back) => read_back,
            Err(fault) => return Err(tell_no_read_back(rt, alloc, site, fault, out)),
        };
        let identities = match identities_of(alloc, file) {
            Ok(identities) => identities,
            Err(fault) => return Err(tell_no_identities(rt, alloc, site, fault, out)),
        };
        Ok(ServedKeys {
            hours,
            powers,
            read_back,
            identities,
        })
    }

    /// What devices are asked to say of themselves: those of a simulated plant nothing.
    pub(crate) fn identities_over(&self, devices: DeviceSource<'_>) -> &[Option<Identity>] {
        match devices {
            DeviceSource::Plant(_) => &[],
            DeviceSource::BySite | DeviceSource::Behind(_) => self.identities.as_slice(),
        }
    }
}

/// What the site is called by its file; or the status, once it is told what is wrong with that.
pub(crate) fn name_in<'f, R: Print + Eprint + AllocGlobal, W: Write>(
    rt: &R,
    alloc: Global,
    file: &'f TomlFile<'_>,
    out: &mut W,
) -> Result<Option<&'f str>, u8> {
    match site_name(file) {
        Ok(name) => Ok(name),
        Err(fault) => Err(tell_no_name(rt, alloc, fault, out)),
    }
}
