//! Which clients may write.
ghost use Rattle.std.specs.Prelude.{◌≡◌, ◌≢◌, ◌↔◌, ℕ, ◌-◌, ◌/◌, ◌^◌, IfErr, IfOk, IsTrue, IsFalse, MatchOption, []};
ghost use Rattle.std.specs.Net.Addr.{ipv4_bits, ipv6_bits};
ghost use Rattle.std.specs.Net.Grammar.{IsIpText};
ghost use Rattle.std.specs.declared.net.ip_addr.IpAddr.{IpAddr as Ip};
ghost use Rattle.service_texts.specs.Writers.{Admits, AreNamed, AreWriters, HasBits, HasNoAddress, IsAt, IsNoNetwork, IsWithin, LiesWithin, MayWrite, Names, NamesNone, SomeAdmits};
ghost use Rattle.service_texts.specs.declared.writers.WriterFault.TheVariants as fault;

use point_types::Items;
use std::alloc::{AllocError, Global};
use std::net::{IpAddr, Ipv4Addr, Ipv6Addr};

/// Which clients may write: those at one address, or those at all addresses with the same first bits.
#[derive(Clone, Copy)]
pub enum Writer {
    /// Those at this address.
    At(IpAddr),
    /// Those at each address that has so many of the first bits of this one.
    Within(IpAddr, u8),
}

/// Why the words don't say which clients may write.
#[derive(Clone, Copy)]
pub enum WriterFault {
    /// One of them is no IP address, nor one with a number of bits.
    NoAddress,
    /// Memory was refused.
    OutOfMemory,
}

impl From<AllocError> for WriterFault {
    ghost use Rattle.std.specs.Prelude.{◌≡◌};
    ghost use Rattle.service_texts.specs.declared.writers.WriterFault.TheVariants.{OutOfMemory};

    ghost from_gives = { λ _ e. e ≡ OutOfMemory };

    fn from(_refused: AllocError) -> Self {
        WriterFault::OutOfMemory
    }
}

/// Which clients may write, by the words that say so: those that the words name, in order, and no other; where there are none,
/// those of this machine, at 127.0.0.1, alone.
pub fn writers_of(alloc: Global, words: &[&str]) -> Result<Items<Writer>, WriterFault>
    ensures named { IfOk result (AreWriters words.now) }
    ensures refused { IfErr result (λ e. e ≢ fault.OutOfMemory → HasNoAddress words.now) }
{
    if words.is_empty() {
        Ok(this_machine(alloc)?)
    } else {
        writers_named(alloc, words)
    }
}

fn this_machine(alloc: Global) -> Result<Items<Writer>, AllocError>
    ensures { IfOk result (AreWriters []) }
{
    let mut writers = Items::new(alloc);
    writers.push(Writer::At(IpAddr::V4(Ipv4Addr::LOCALHOST)))?;
    Ok(writers)
}

fn writers_named(alloc: Global, words: &[&str]) -> Result<Items<Writer>, WriterFault>
    ensures named { IfOk result (AreNamed words.now) }
    ensures refused { IfErr result (λ e. e ≢ fault.OutOfMemory → HasNoAddress words.now) }
{
    let mut writers = Items::new(alloc);
    for word in words {
        let Some(writer) = writer_named(word) else {
            return Err(WriterFault::NoAddress);
        };
        writers.push(writer)?;
    }
    Ok(writers)
}

/// What a word names: an address, or with a slash and a number of bits all addresses that begin alike.
fn writer_named(word: &str) -> Option<Writer>
    ensures { MatchOption result (NamesNone word.now) (Names word.now) }
{
    match word.split_once('/') {
        Some((network, bits)) => within_named(network, bits),
        None => at_named(word),
    }
}

/// An address; an IPv4 address inside an IPv6 one counts as that IPv4 address.
fn at_named(word: &str) -> Option<Writer>
    ensures { MatchOption result ((a : Ip) → IsIpText word.now a → ⊥) (IsAt word.now) }
{
    match word.parse::<IpAddr>() {
        Ok(address) => Some(Writer::At(address.to_canonical())),
        Err(_) => None,
    }
}

/// All addresses that begin as one, with so many bits.
fn within_named(network: &str, bits: &str) -> Option<Writer>
    ensures { MatchOption result (IsNoNetwork network.now bits.now) (IsWithin network.now bits.now) }
{
    let (Ok(network), Ok(bits)) = (network.parse::<IpAddr>(), bits.parse::<u8>()) else {
        return None;
    };
    if has_bits(network, bits) {
        Some(Writer::Within(network, bits))
    } else {
        None
    }
}

/// Whether an address has so many bits.
fn has_bits(network: IpAddr, bits: u8) -> bool
    ensures { IsTrue result ↔ HasBits network bits }
{
    match network {
        IpAddr::V4(_) => bits <= 32,
        IpAddr::V6(_) => bits <= 128,
    }
}

/// Whether clients at an address may write, where these may: what it counts as has to be the address of one of them, or to
/// begin as theirs do.
pub fn may_write(writers: &[Writer], address: IpAddr) -> bool
    ensures { MayWrite writers.now address result }
{
    is_among(address.to_canonical(), writers)
}

fn is_among(address: IpAddr, writers: &[Writer]) -> bool
    ensures member { IsTrue result → SomeAdmits writers.now address }
    ensures other { IsFalse result → SomeAdmits writers.now address → ⊥ }
{
    for writer in writers {
        if admits(*writer, address) {
            return true;
        }
    }
    false
}

fn admits(writer: Writer, address: IpAddr) -> bool
    ensures { IsTrue result ↔ Admits writer address }
{
    match writer {
        Writer::At(known) => is_same(known, address),
        Writer::Within(network, bits) => lies_within(network, bits, address),
    }
}

fn is_same(known: IpAddr, address: IpAddr) -> bool
    ensures { IsTrue result ↔ (known ≡ address) }
{
    known == address
}

/// Whether an address has so many of the first bits of a network's; none of another family has.
fn lies_within(network: IpAddr, bits: u8, address: IpAddr) -> bool
    ensures { IsTrue result ↔ LiesWithin network bits address }
{
    match (network, address) {
        (IpAddr::V4(network), IpAddr::V4(address)) => {
            first_of_four(network, bits) == first_of_four(address, bits)
        }
        (IpAddr::V6(network), IpAddr::V6(address)) => {
            first_of_six(network, bits) == first_of_six(address, bits)
        }
        _ => false,
    }
}

/// The first bits of an IPv4 address, as a number.
fn first_of_four(address: Ipv4Addr, bits: u8) -> u32
    ensures { result ≡ ipv4_bits address / 2 ^ (32 - bits) }
{
    let rest = 32u32.saturating_sub(u32::from(bits));
    address.to_bits().checked_shr(rest).unwrap_or(0)
}

/// The first bits of an IPv6 address, as a number.
fn first_of_six(address: Ipv6Addr, bits: u8) -> u128
    ensures { result ≡ ipv6_bits address / 2 ^ (128 - bits) }
{
    let rest = 128u32.saturating_sub(u32::from(bits));
    address.to_bits().checked_shr(rest).unwrap_or(0)
}
