//! Translators of addresses, with memory enough.

use rtmfp_forms::Address;
use std::alloc::Global;
use std::test::Fail;
use translators::{InRefusal, OutRefusal, Rule, Translator};

const HOST: [u8; 4] = [10, 1, 0, 1];

/// Whether one port serves one host, and no other.
fn serves_one_host(alloc: Global) -> bool {
    let inner = Address::v4([192, 168, 0, 2], 1935);
    let public = Address::v4(HOST, 65535);
    let nine = Address::v4([10, 0, 0, 9], 1935);
    let eight = Address::v4([10, 0, 0, 8], 1);
    let mut translator = Translator::new(alloc, Rule::Dependent, Rule::Dependent, HOST, 65535);
    translator.outward(&inner, &nine) == Ok(public)
        && translator.outward(&inner, &nine) == Ok(public)
        && translator.outward(&inner, &eight) == Err(OutRefusal::PortsFull(1))
        && translator.inward(&public, &Address::v4([10, 0, 0, 9], 7)) == Ok(inner)
        && translator.inward(&public, &eight) == Err(InRefusal::Filtered)
}

/// Whether an inner place has one port towards two hosts, and another one the next port.
fn serves_two_hosts(alloc: Global) -> bool {
    let inner = Address::v4([192, 168, 0, 2], 1935);
    let public = Address::v4(HOST, 40000);
    let nine = Address::v4([10, 0, 0, 9], 1935);
    let eight = Address::v4([10, 0, 0, 8], 1);
    let other = Address::v4([192, 168, 0, 3], 1935);
    let mut translator = Translator::new(alloc, Rule::Independent, Rule::Dependent, HOST, 40000);
    translator.outward(&inner, &nine) == Ok(public)
        && translator.outward(&inner, &eight) == Ok(public)
        && translator.outward(&other, &nine) == Ok(Address::v4(HOST, 40001))
        && translator.inward(&public, &nine) == Ok(inner)
        && translator.inward(&public, &eight) == Ok(inner)
}

#[test]
fn one_port_serves_one_host(rt: HostRuntime) {
    assert!(rt; serves_one_host(rt.alloc()));
}

#[test]
fn one_mapping_serves_two_hosts(rt: HostRuntime) {
    assert!(rt; serves_two_hosts(rt.alloc()));
}
