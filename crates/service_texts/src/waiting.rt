//! How long the service waits.
ghost use Rattle.std.specs.Prelude.{◌≡◌};

use service_parts::Limits;

/// How long a device that never answered is waited for where others answer, in milliseconds.
const FIRST_WAIT: u64 = 250;

/// The longest wait between two tries to make a connection.
const BACK_OFF_MOST: u64 = 5_000;

/// How long a device without a map is left alone.
const SEARCH_AGAIN: u64 = 10_000;

/// How long a client may be silent.
const IDLE: u64 = 120_000;

/// The limits for a period and for the longest reply that is waited for, both in milliseconds, and for so many clients.
pub fn limits(period: u64, timeout: u64, clients: usize) -> Limits
    ensures exact { result ≡ record { period = period; timeout = timeout; first_wait = 250; clients = clients; idle = 120000; back_off_most = 5000; search_again = 10000 } }
{
    Limits {
        period,
        timeout,
        first_wait: FIRST_WAIT,
        clients,
        idle: IDLE,
        back_off_most: BACK_OFF_MOST,
        search_again: SEARCH_AGAIN,
    }
}
