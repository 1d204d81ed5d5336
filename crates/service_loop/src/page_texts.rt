//! What those who look are shown.
use history::LastHour;
use page_server::PageTexts;
use std::alloc::{AllocError, Global};
use std::net::SocketAddr;

/// The texts of the last scan, as they were made when somebody looked.
#[derive(Drop)]
pub(crate) struct ScanTexts {
    /// After how many scans they were made; none before the first time.
    scans: Option<u64>,
    status: String,
    metrics: String,
}

impl ScanTexts {
    /// Nothing was made yet.
    pub(crate) fn none(alloc: Global) -> ScanTexts {
        ScanTexts {
            scans: None,
            status: String::new(alloc),
            metrics: String::new(alloc),
        }
    }

    /// Those after so many scans.
    pub(crate) fn new(status: String, metrics: String, scans: u64) -> ScanTexts {
        ScanTexts {
            scans: Some(scans),
            status,
            metrics,
        }
    }

    /// Whether they are those after so many scans.
    pub(crate) fn is_of(&self, scans: u64) -> bool {
        match self.scans {
            Some(made) => made == scans,
            None => false,
        }
    }

    /// Beside what is told of the site, and the last hour.
    pub(crate) fn beside<'a>(&'a self, site: &'a str, hour: LastHour<'a>) -> PageTexts<'a> {
        PageTexts {
            status: self.status.as_str(),
            metrics: self.metrics.as_str(),
            site,
            hour,
        }
    }
}

/// What doesn't change while a program runs, as JSON: where clients come to, the program, and the members of the object of the site.
pub(crate) fn site_text(
    alloc: Global,
    listen: SocketAddr,
    site: &str,
    program: &str,
) -> Result<String, AllocError> {
    let address = format!(in alloc; "{listen}")?;
    let mut text = String::from_str(alloc, "{\"listen\":\"")?;
    text.push_str(address.as_str())?;
    text.push_str("\",\"program\":")?;
    text.push_str(program)?;
    text.push_str(",")?;
    text.push_str(site.strip_prefix('{').unwrap_or("}"))?;
    text.push_str("\n")?;
    Ok(text)
}

/// `page ADDRESS`, a whole line.
pub(crate) fn page_line(alloc: Global, address: SocketAddr) -> Result<String, AllocError> {
    let line = format!(in alloc; "page {address}\n")?;
    Ok(line)
}
