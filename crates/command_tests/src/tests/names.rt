//! Texts of addresses and of answers, those included that say nothing.
use crate::tests::assert_same;
use service_edges::{Target, address_in, target_of};
use std::alloc::{AllocError, Global};
use std::net::SocketAddr;

/// Texts, and where they lead.
static TARGETS: [(&str, &str); 16] = [
    ("192.0.2.7:502", "address 192.0.2.7:502"),
    ("[2001:db8::7]:502", "address [2001:db8::7]:502"),
    ("2001:db8::7:502", "address [2001:db8::7]:502"),
    ("[fe80::1%2]:502", "address [fe80::1%2]:502"),
    ("inverter.example:502", "name inverter.example 502"),
    ("inverter:0502", "name inverter 502"),
    ("192.0.2.256:502", "name 192.0.2.256 502"),
    ("192.0.2:502", "name 192.0.2 502"),
    ("fe80::1%eth0:502", "name fe80::1%eth0 502"),
    ("--help:1", "name --help 1"),
    ("a:b:1", "name a:b 1"),
    ("inverter", "nothing"),
    ("inverter:", "nothing"),
    ("inverter:65536", "nothing"),
    ("inverter:modbus", "nothing"),
    ("", "nothing"),
];

/// Answers, and the address of port 502 there.
static ANSWERS: [(&[u8], &str); 11] = [
    (
        b"192.0.2.7       STREAM inverter.example\n192.0.2.7       DGRAM  \n",
        "address 192.0.2.7:502",
    ),
    (
        b"2001:db8::7     STREAM inverter.example\n",
        "address [2001:db8::7]:502",
    ),
    (b"fe80::1%3     STREAM", "address [fe80::1%3]:502"),
    (b"192.0.2.7 \xff", "address 192.0.2.7:502"),
    (b"", "nothing"),
    (b"192.0.2.7", "nothing"),
    (b"192.0.2.7\n192.0.2.8 STREAM", "nothing"),
    (b" 192.0.2.7 STREAM", "nothing"),
    (b"192.0.2.7%1 STREAM", "nothing"),
    (b"fe80::1%eth0 STREAM", "nothing"),
    (b"\xff STREAM", "nothing"),
];

#[test]
fn texts_lead_to_addresses_and_names(rt: HostRuntime) {
    for (text, wanted) in &TARGETS {
        let told = told_target(rt.alloc(), target_of(text)).expect(&rt, "memory");
        assert_same(&rt, &told.as_str(), wanted);
    }
}

#[test]
fn answers_say_addresses(rt: HostRuntime) {
    for (answer, wanted) in &ANSWERS {
        let told = told_address(rt.alloc(), address_in(answer, 502)).expect(&rt, "memory");
        assert_same(&rt, &told.as_str(), wanted);
    }
}

fn told_target(alloc: Global, target: Option<Target<'_>>) -> Result<String, AllocError> {
    match target {
        Some(Target::Address(address)) => told_address(alloc, Some(address)),
        Some(Target::Name(name, port)) => {
            let text = format!(in alloc; "name {name} {port}")?;
            Ok(text)
        }
        None => told_address(alloc, None),
    }
}

fn told_address(alloc: Global, address: Option<SocketAddr>) -> Result<String, AllocError> {
    match address {
        Some(address) => {
            let text = format!(in alloc; "address {address}")?;
            Ok(text)
        }
        None => String::from_str(alloc, "nothing"),
    }
}
