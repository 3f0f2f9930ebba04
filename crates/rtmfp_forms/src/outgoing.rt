ghost use Rattle.std.specs.Prelude.{◌≡◌, ◌+◌, ◌<◌, ◌≤◌, ◌↔◌, ◌++◌, [], ◌∷◌, length, OnOk, OnErr, IsErr};
ghost use Rattle.rtmfp_vlu.specs.Vlu.{vlu};
ghost use Rattle.rtmfp_forms.specs.Address.{address_bytes};
ghost use Rattle.rtmfp_forms.specs.Outgoing.{packet_limit};

use crate::address::{Address, write_address};
use rtmfp_vlu::write_vlu;
use std::marker::Model;
use thiserror::Error;

/// The most bytes of a plain packet that is sent (own).
const PACKET_LIMIT: usize = 1164;

/// The bytes don't fit into the packet.
#[derive(Clone, Copy, Debug, PartialEq, Eq, Error)]
#[error("the packet has no room for this")]
pub struct NoRoom;

/// A plain packet of at most 1,164 bytes that is put together piece by piece, in a fixed array.
#[derive(Drop)]
pub struct Outgoing {
    packed: [u8; PACKET_LIMIT],
    len: usize,
}

impl Model for Outgoing {
    ghost use Rattle.std.specs.Prelude.{ℕ, ◌≤◌, List, take};

    ghost Value = { List ℕ };

    ghost view = { λ o. take o.len o.packed };

    ghost invariant = { λ o. o.len ≤ 1164 };
}

impl Outgoing {
    /// A packet that has its flags alone.
    pub fn new(flags: u8) -> Outgoing
        ensures { result ≡ flags ∷ [] }
    {
        let mut packed = [0; PACKET_LIMIT];
        packed[0] = flags;
        Outgoing { packed, len: 1 }
    }

    /// Puts the bytes at the end, all or none.
    pub fn put(&mut self, bytes: &[u8]) -> Result<(), NoRoom>
        ensures ok { OnOk result (self.new ≡ self.old ++ bytes.now) }
        ensures no_room { IsErr result ↔ (packet_limit < length self.old + length bytes.now) }
        ensures err { OnErr result (self.new ≡ self.old) }
    {
        if bytes.len() > self.room() {
            return Err(NoRoom);
        }
        self.append(bytes);
        Ok(())
    }

    /// Puts bytes at the end for which there is room.
    pub fn append(&mut self, bytes: &[u8])
        requires { length self.old + length bytes.now ≤ packet_limit }
        ensures { self.new ≡ self.old ++ bytes.now }
    {
        let end = self.len + bytes.len();
        self.packed[self.len..end].copy_from_slice(bytes);
        self.len = end;
    }

    /// Puts a number's shortest spelling at the end, for which there is room.
    pub fn append_vlu(&mut self, value: u64)
        requires { length self.old + length (vlu value) ≤ packet_limit }
        ensures { self.new ≡ self.old ++ vlu value }
    {
        let mut spelling = [0; 10];
        let len = write_vlu(value, &mut spelling);
        self.append(&spelling[..len]);
    }

    /// Puts an address at the end, for which there is room.
    pub fn append_address(&mut self, address: &Address)
        requires { length self.old + length (address_bytes address.now) ≤ packet_limit }
        ensures { self.new ≡ self.old ++ address_bytes address.now }
    {
        let mut spelling = [0; 19];
        let len = write_address(address, &mut spelling);
        self.append(&spelling[..len]);
    }

    pub fn bytes(&self) -> &[u8]
        ensures bytes { result.now ≡ self.now }
        ensures limit { length self.now ≤ packet_limit }
    {
        &self.packed[..self.len]
    }

    /// How many bytes still fit.
    pub fn room(&self) -> usize
        ensures { length self.now + result ≡ packet_limit }
    {
        PACKET_LIMIT - self.len
    }
}
