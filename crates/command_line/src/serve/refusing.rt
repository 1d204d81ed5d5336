//! Why a site can't be served: it isn't known what it is called, where a device is, for how much power one is made, how long one
//! sleeps, what one must say of itself, which outputs are compared or which variables are kept, or there is no core.
use crate::words::tell_misuse;
use command_files::{
    device_fault, why_no_hours, why_no_identities, why_no_name, why_no_powers, why_no_read_back,
    why_unretained,
};
use commands::{no_core, tell_no_memory, write_lines};
use gateway::CoreFault;
use service_texts::{
    AddressFault, IdentityFault, RatedFault, ReadBackFault, RetainFault, SiteNameFault, SleepFault,
};
use site_model::Site;
use std::alloc::{AllocError, Global};
use std::io::Write;

/// Tells that it isn't known where a device is, and gives the status.
pub(crate) fn tell_unreachable<R: Print + Eprint + AllocGlobal, W: Write>(
    rt: &R,
    alloc: Global,
    site: &Site,
    fault: AddressFault,
    out: &mut W,
) -> u8 {
    let why = match fault {
        AddressFault::NoPort(device) => {
            device_fault(alloc, site, device, "has an 'address' that is no HOST:PORT")
        }
        AddressFault::Missing(device) => device_fault(
            alloc,
            site,
            device,
            "has no 'address' in the site file, and there is no '--devices'",
        ),
        AddressFault::BadUnit(device) => {
            device_fault(
                alloc,
                site,
                device,
                "has a 'remote_unit' that isn't in 0..255",
            )
        }
        AddressFault::NotToml => String::from_str(alloc, "the site is no TOML"),
        AddressFault::OutOfMemory => Err(AllocError),
    };
    match why {
        Ok(why) => tell_misuse(rt, alloc, why.as_str(), out),
        Err(AllocError) => tell_no_memory(out),
    }
}

/// Tells that it isn't known what the site is called, and gives the status.
pub(crate) fn tell_no_name<R: Print + Eprint + AllocGlobal, W: Write>(
    rt: &R,
    alloc: Global,
    fault: SiteNameFault,
    out: &mut W,
) -> u8 {
    match why_no_name(alloc, fault) {
        Ok(why) => tell_misuse(rt, alloc, why.as_str(), out),
        Err(AllocError) => tell_no_memory(out),
    }
}

/// Tells that it isn't known for how much power devices are made, and gives the status.
pub(crate) fn tell_no_powers<R: Print + Eprint + AllocGlobal, W: Write>(
    rt: &R,
    alloc: Global,
    site: &Site,
    fault: RatedFault,
    out: &mut W,
) -> u8 {
    match why_no_powers(alloc, site, fault) {
        Ok(why) => tell_misuse(rt, alloc, why.as_str(), out),
        Err(AllocError) => tell_no_memory(out),
    }
}

/// Tells that it isn't known which devices sleep, and gives the status.
pub(crate) fn tell_no_hours<R: Print + Eprint + AllocGlobal, W: Write>(
    rt: &R,
    alloc: Global,
    site: &Site,
    fault: SleepFault,
    out: &mut W,
) -> u8 {
    match why_no_hours(alloc, site, fault) {
        Ok(why) => tell_misuse(rt, alloc, why.as_str(), out),
        Err(AllocError) => tell_no_memory(out),
    }
}

/// Tells that it isn't known what devices must say of themselves, and gives the status.
pub(crate) fn tell_no_identities<R: Print + Eprint + AllocGlobal, W: Write>(
    rt: &R,
    alloc: Global,
    site: &Site,
    fault: IdentityFault,
    out: &mut W,
) -> u8 {
    match why_no_identities(alloc, site, fault) {
        Ok(why) => tell_misuse(rt, alloc, why.as_str(), out),
        Err(AllocError) => tell_no_memory(out),
    }
}

/// Tells that it isn't known which outputs are compared with what their devices show, and gives the status.
pub(crate) fn tell_no_read_back<R: Print + Eprint + AllocGlobal, W: Write>(
    rt: &R,
    alloc: Global,
    site: &Site,
    fault: ReadBackFault,
    out: &mut W,
) -> u8 {
    match why_no_read_back(alloc, site, fault) {
        Ok(why) => tell_misuse(rt, alloc, why.as_str(), out),
        Err(AllocError) => tell_no_memory(out),
    }
}

/// Tells that it isn't known which variables are kept, and gives the status.
pub(crate) fn tell_unretained<R: Print + Eprint + AllocGlobal, W: Write>(
    rt: &R,
    alloc: Global,
    fault: RetainFault,
    out: &mut W,
) -> u8 {
    match why_unretained(alloc, fault) {
        Ok(why) => tell_misuse(rt, alloc, why.as_str(), out),
        Err(AllocError) => tell_no_memory(out),
    }
}

/// Tells why there is no core, and gives the status.
pub(crate) fn tell_no_core<W: Write>(alloc: Global, fault: CoreFault, out: &mut W) -> u8 {
    if fault == CoreFault::OutOfMemory {
        return tell_no_memory(out);
    }
    match no_core(alloc, fault.word()) {
        Ok(line) => write_lines(out, line.as_bytes(), 1),
        Err(_) => tell_no_memory(out),
    }
}
