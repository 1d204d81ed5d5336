//! What the second process prints: a line for each address of a name and each kind of socket, the best one first.
ghost use Rattle.std.specs.Prelude.{◌≡◌, ◌==◌, IfSome};
ghost use Rattle.service_edges.specs.Answers.{Answers, SpellsPlain, SpellsScoped, Spells, word_end_from};

use std::net::{IpAddr, Ipv6Addr, SocketAddr, SocketAddrV6};

/// The address of a port at the first address of an answer, which stands before the first blank; None where no address
/// stands there.
pub fn address_in(answer: &[u8], port: u16) -> Option<SocketAddr>
    ensures { IfSome result (Answers answer.now port) }
{
    let word = answer.get(..word_end(answer)?)?;
    let Ok(word) = str::from_utf8(word) else {
        return None;
    };
    spelled(word, port)
}

/// How many bytes stand before the first blank; None where there is no blank.
fn word_end(answer: &[u8]) -> Option<usize>
    ensures { result ≡ word_end_from 0 answer.now }
{
    for (number, byte) in answer.iter().enumerate() {
        if *byte == b' ' {
            return Some(number);
        }
    }
    None
}

/// The address of a port at the address that a word spells: one that holds on a link has the link's number after a `%`.
fn spelled(word: &str, port: u16) -> Option<SocketAddr>
    ensures { IfSome result (Spells word.now port) }
{
    match word.split_once('%') {
        Some((ip, scope)) => scoped(ip, scope, port),
        None => plain(word, port),
    }
}

fn plain(word: &str, port: u16) -> Option<SocketAddr>
    ensures { IfSome result (SpellsPlain word.now port) }
{
    match word.parse::<IpAddr>() {
        Ok(ip) => Some(SocketAddr::new(ip, port)),
        Err(_) => None,
    }
}

fn scoped(ip: &str, scope: &str, port: u16) -> Option<SocketAddr>
    ensures { IfSome result (SpellsScoped ip.now scope.now port) }
{
    match (ip.parse::<Ipv6Addr>(), scope.parse::<u32>()) {
        (Ok(ip), Ok(scope)) => Some(SocketAddr::V6(SocketAddrV6::new(ip, port, 0, scope))),
        _ => None,
    }
}
