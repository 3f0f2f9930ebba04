ghost use Rattle.std.specs.Prelude.{◌≡◌, ℕ, ◌+◌, ◌-◌, ◌<◌, ◌≤◌, ◌↔◌, ◌++◌, false, if◌then◌else◌, length, take, drop, replicate, IsTrue, IfOk, IfErr, Ok};
ghost use Rattle.rtmfp_forms.specs.Address.{AddressParts, host_len, IsAddress, SamePlace, AddressSpells, address_bytes, IsCutAddress};
ghost use Rattle.rtmfp_forms.specs.AddressReading.{address_at};

use crate::fault::FormFault;
use std::marker::Model;

/// A transport address (RFC 7016 section 2.1.5).
#[derive(Clone, Copy, Debug, PartialEq, Eq)]
pub struct Address {
    /// Whether it is an IPv6 address.
    pub v6: bool,
    /// Where it comes from: 0 unknown, 1 local, 2 observed, 3 relay.
    pub origin: u8,
    /// The host, most significant byte first. An IPv4 host has the first four bytes, and zeros
    /// after them.
    pub host: [u8; 16],
    pub port: u16,
}

impl Model for Address {
    ghost use Rattle.rtmfp_forms.specs.Address.{AddressParts, IsAddress};

    ghost Value = { AddressParts };

    ghost view = { λ a. record { v6 = a.v6; origin = a.origin; host = a.host; port = a.port } };

    ghost invariant = { λ a. IsAddress
        (record { v6 = a.v6; origin = a.origin; host = a.host; port = a.port }) };

    ghost inverse = { λ a. record { v6 = a.v6; origin = a.origin; host = a.host; port = a.port } };
}

impl Address {
    /// An IPv4 address of unknown origin.
    pub fn v4(host: [u8; 4], port: u16) -> Address
        ensures { result ≡ record {
          v6 = false;
          origin = 0;
          host = host ++ replicate 12 0;
          port = port;
        } }
    {
        let mut filled = [0; 16];
        filled[..4].copy_from_slice(&host);
        Address {
            v6: false,
            origin: 0,
            host: filled,
            port,
        }
    }

    /// Whether family, host and port agree. The origin doesn't count.
    pub fn same_place(&self, other: &Address) -> bool
        ensures { IsTrue result ↔ SamePlace self.now other.now }
    {
        self.v6 == other.v6 && self.host == other.host && self.port == other.port
    }
}

/// Reads the address that the bytes begin with, and the number of bytes that it takes, 7 or 19. The
/// five middle bits of the flags are ignored (own).
pub fn read_address(bytes: &[u8]) -> Result<(Address, usize), FormFault>
    // What is read stands there.
    ensures ok { IfOk result (λ found. (found.1 ≤ length bytes.now) ×
        AddressSpells found.0 (take found.1 bytes.now)) }
    // What stands there is read.
    ensures complete { (a : AddressParts) (n : ℕ) → n ≤ length bytes.now →
        AddressSpells a (take n bytes.now) → result ≡ Ok (a, n) }

    ensures short { (result ≡ Err FormFault.Short) ↔ IsCutAddress bytes.now }
    ensures only_short { IfErr result (λ fault. fault ≡ FormFault.Short) }

    // All of this as one function.
    ensures exact { result ≡ address_at bytes.now }
{
    address_of(bytes)
}

#[tactic(auto, unfolding(crate::specs::AddressReading::address_at))]
fn address_of(bytes: &[u8]) -> Result<(Address, usize), FormFault>
    ensures { result ≡ address_at bytes.now }
{
    let Some((flags, rest)) = bytes.split_first() else {
        return Err(FormFault::Short);
    };
    let v6 = *flags >= 0x80;
    let host_len = host_len(v6);
    if rest.len() < host_len + 2 {
        return Err(FormFault::Short);
    }
    let mut host = [0; 16];
    host[..host_len].copy_from_slice(&rest[..host_len]);
    let address = Address {
        v6,
        origin: *flags & 0x03,
        host,
        port: u16::from_be_bytes([rest[host_len], rest[host_len + 1]]),
    };
    Ok((address, host_len + 3))
}

/// Writes an address at the front, and gives its length, 7 or 19. The bytes after it stay as they
/// are.
pub fn write_address(address: &Address, out: &mut [u8; 19]) -> usize
    ensures spells { AddressSpells address.now (take result out.new) }
    ensures written { out.new ≡ address_bytes address.now ++ drop result out.old }
    ensures length { result ≡ length (address_bytes address.now) }
{
    let host_len = host_len(address.v6);
    out[0] = family_bit(address.v6) | address.origin;
    out[1..host_len + 1].copy_from_slice(&address.host[..host_len]);
    out[host_len + 1..host_len + 3].copy_from_slice(&address.port.to_be_bytes());
    host_len + 3
}

/// How many bytes of a host are sent.
fn host_len(v6: bool) -> usize
    ensures { result ≡ host_len v6 }
{
    if v6 { 16 } else { 4 }
}

fn family_bit(v6: bool) -> u8
    ensures { result ≡ (if v6 then 128 else 0) }
{
    if v6 { 0x80 } else { 0 }
}
