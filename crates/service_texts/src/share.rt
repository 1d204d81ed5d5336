//! What was told of one address in a span of time.
ghost use Rattle.std.specs.Prelude.{◌≡◌, nat_lt};
ghost use Rattle.service_texts.specs.Keys.{IsKeyOf, StandsFor};
ghost use Rattle.service_texts.specs.Rationing.{fresh, is_over, served};

use std::net::{IpAddr, Ipv6Addr};

/// What was told of one address since a span of time began.
#[derive(Clone, Copy, Default)]
pub struct Share {
    /// The address, as a number.
    pub key: u128,
    /// When the span began, in milliseconds.
    pub since: u64,
    /// How many lines were told.
    pub told: u64,
    /// How many more weren't.
    pub more: u64,
}

impl Share {
    /// The share of an address of which nothing was told, from now on.
    pub(crate) fn fresh(key: u128, now: u64) -> Share
        ensures { result ≡ fresh key now }
    {
        Share {
            key,
            since: now,
            told: 0,
            more: 0,
        }
    }

    /// One more line is to be told, where at most so many are; whether it is, and else it is counted.
    pub(crate) fn serve(&mut self, most: u64) -> bool
        ensures told { result ≡ nat_lt self.old.told most }
        ensures after { self.new ≡ served most self.old }
    {
        if self.told < most {
            self.told += 1;
            true
        } else {
            self.more = self.more.saturating_add(1);
            false
        }
    }

    /// Whether so long a span is over.
    pub(crate) fn is_over(&self, span: u64, now: u64) -> bool
        ensures { result ≡ is_over span now self.now }
    {
        now.saturating_sub(self.since) >= span
    }
}

/// An address as a number: its bits as an IPv6 address, where an IPv4 address is one that is inside such a one.
pub fn key_of(address: IpAddr) -> u128
    ensures { IsKeyOf address result }
{
    match address {
        IpAddr::V4(four) => four.to_ipv6_mapped().to_bits(),
        IpAddr::V6(six) => six.to_bits(),
    }
}

/// The address that a number stands for.
pub fn address_of(key: u128) -> IpAddr
    ensures { StandsFor key result }
{
    Ipv6Addr::from_bits(key).to_canonical()
}
