//! The time of day by the system's clock.
use std::time::{Clock, SystemTime, UNIX_EPOCH};

/// The seconds since 1970-01-01T00:00:00Z by the system's clock, which may be set while the service runs; none where it can't
/// be read, or stands before that.
pub fn seconds_of_day<R: Clock>(rt: &R) -> Option<u64> {
    let now = SystemTime::now(rt).ok()?;
    let since = now.duration_since(UNIX_EPOCH).ok()?;
    Some(since.as_secs())
}
