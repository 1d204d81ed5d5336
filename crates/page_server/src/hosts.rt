//! For whom a request is.
ghost use Rattle.std.specs.Prelude.{◌≡◌, ◌∷◌, ℕ, List, IsTrue, map, string_bytes};
ghost use Rattle.std.specs.List.{before_first};
ghost use Rattle.page_server.specs.Hosts.{IsAmong, IsFour, IsKnownHost, IsPlain, IsSix, is_closing, is_colon};

use std::net::{Ipv4Addr, Ipv6Addr};

/// Whether a request for this host (RFC 9110, section 7.2), with or without a port, is for this machine: by an address, which no
/// name server can say of it, or by one of these names.
pub fn is_known_host(host: &str, names: &[String]) -> bool
    ensures { IsTrue result → IsKnownHost host.now (map string_bytes names.now) }
{
    match host.strip_prefix('[') {
        Some(rest) => is_bracketed(rest),
        None => is_plain(host, names),
    }
}

/// Whether what stands before the closing bracket spells an address.
fn is_bracketed(rest: &str) -> bool
    ensures { IsTrue result → IsSix (before_first is_closing rest.now) }
{
    match rest.split_once(']') {
        Some((address, _)) => is_six(address),
        None => false,
    }
}

fn is_plain(host: &str, names: &[String]) -> bool
    ensures { IsTrue result → IsPlain host.now (map string_bytes names.now) }
{
    let name = before_port(host);
    if is_four(name) {
        return true;
    }
    is_among(name, names)
}

fn before_port(host: &str) -> &str
    ensures { result.now ≡ before_first is_colon host.now }
{
    match host.split_once(':') {
        Some((name, _)) => name,
        None => host,
    }
}

fn is_four(text: &str) -> bool
    ensures { IsTrue result → IsFour text.now }
{
    match text.parse::<Ipv4Addr>() {
        Ok(_) => true,
        Err(_) => false,
    }
}

fn is_six(text: &str) -> bool
    ensures { IsTrue result → IsSix text.now }
{
    match text.parse::<Ipv6Addr>() {
        Ok(_) => true,
        Err(_) => false,
    }
}

fn is_among(name: &str, names: &[String]) -> bool
    ensures { IsTrue result → IsAmong name.now (map string_bytes names.now) }
{
    for known in names {
        if name.eq_ignore_ascii_case(known.as_str()) {
            return true;
        }
    }
    false
}
