//! What those who look at a service are told once.
use crate::serve::service_run::ServiceRun;
use command_files::{SitePart, program_text, site_text, tag_units};
use commands::Accepted;
use service_loop::PageWindow;
use std::alloc::{AllocError, Global};

/// The site and the program of the start, as JSON, and the units of the site's tags.
#[derive(Drop)]
pub(crate) struct PageParts {
    site: String,
    program: String,
    units: Vec<String>,
}

impl PageParts {
    /// Those of a service that begins on an accepted program; empty where nobody can look.
    pub(crate) fn of(
        alloc: Global,
        run: &ServiceRun<'_, '_, '_, '_, '_>,
        given: &Accepted,
    ) -> Result<PageParts, AllocError> {
        if run.serving.page.is_none() {
            return Ok(PageParts {
                site: String::new(alloc),
                program: String::new(alloc),
                units: Vec::new(alloc),
            });
        }
        let part = SitePart {
            site: &given.site,
            name: run.serving.name,
            rated: run.rated,
            defs: run.notes.defs,
            period: run.limits.period,
            timeout: run.limits.timeout,
            clients: run.limits.clients,
            writers: run.serving.writers,
            keeps: run.keeping.state.is_some(),
            reloads: run.reloads,
        };
        let (path, text) = (run.notes.program_path, run.notes.program);
        Ok(PageParts {
            site: site_text(alloc, &part)?,
            program: program_text(alloc, path, text, &given.site, &given.verified)?,
            units: tag_units(alloc, given.site.tags(), run.notes.defs)?,
        })
    }

    /// Where those look, with what they are told.
    pub(crate) fn window<'w>(&'w self, window: Option<PageWindow<'w>>) -> Option<PageWindow<'w>> {
        match window {
            Some(window) => Some(PageWindow {
                site: self.site.as_str(),
                program: self.program.as_str(),
                units: self.units.as_slice(),
                ..window
            }),
            None => None,
        }
    }
}
