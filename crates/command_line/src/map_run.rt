//! The command `map`: what clients are served, register by register.
use crate::survey::{NO_PROGRAM, tell_refused};
use command_files::warn_on_site;
use commands::{accept, tell_no_memory, write_lines};
use refusal_notes::Notes;
use served_map::{MapForm, MapOf, text_of};
use site_model::Site;
use std::alloc::{AllocError, Global};
use std::io::Write;
use survey_rows::HandedDefs;

/// What is asked for.
#[derive(Clone, Copy)]
pub(crate) struct MapRun<'n> {
    /// The files of the site and the definitions, and whether a refusal is explained.
    pub notes: Notes<'n>,
    pub form: MapForm,
    /// The port that clients come to.
    pub port: u16,
}

/// Prints the points of a site's own map. Gives the status: 1 for a refusal or a failed write.
pub(crate) fn run_map<R: Eprint + AllocGlobal, W: Write>(
    rt: &R,
    alloc: Global,
    run: &MapRun<'_>,
    out: &mut W,
) -> u8 {
    let notes = &run.notes;
    match accept(alloc, notes.site, NO_PROGRAM, notes.defs) {
        Ok(Ok(given)) => {
            warn_on_site(rt, notes, &given.site);
            tell_map(alloc, run, &given.site, out)
        }
        Ok(Err(outcome)) => tell_refused(rt, notes, &outcome, out),
        Err(AllocError) => tell_no_memory(out),
    }
}

fn tell_map<W: Write>(alloc: Global, run: &MapRun<'_>, site: &Site, out: &mut W) -> u8 {
    match map_text(alloc, run, site) {
        Ok(text) => write_lines(out, text.as_slice(), 0),
        Err(AllocError) => tell_no_memory(out),
    }
}

fn map_text(alloc: Global, run: &MapRun<'_>, site: &Site) -> Result<Vec<u8>, AllocError> {
    let handed = HandedDefs::read(alloc, run.notes.defs)?;
    let map = MapOf {
        path: run.notes.site_path,
        site,
        handed: &handed,
        port: run.port,
    };
    text_of(alloc, &map, run.form)
}
