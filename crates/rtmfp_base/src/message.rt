//! Bytes that a value owns.

ghost use Rattle.std.specs.Prelude.{◌≡◌, IfOk, length, ◌==◌};

use crate::memory::Memory;
use std::alloc::Global;
use std::marker::Model;

/// The bytes of a message or a datagram, seen by contracts as their list.
#[derive(Drop)]
pub struct Message {
    bytes: Vec<u8>,
}

impl Model for Message {
    ghost use Rattle.std.specs.Prelude.{List, ℕ};

    ghost Value = { List ℕ };

    ghost view = { λ message. message.bytes.items };
}

impl Message {
    /// The message of bytes that are there. It takes no memory.
    pub fn of(bytes: Vec<u8>) -> Message
        ensures { result ≡ bytes.items }
    {
        Message { bytes }
    }

    /// A copy of bytes.
    pub fn copy_of(alloc: Global, bytes: &[u8]) -> Result<Message, Memory>
        ensures { IfOk result (λ message. message ≡ bytes.now) }
    {
        Ok(Message {
            bytes: Vec::from_slice(alloc, bytes)?,
        })
    }

    pub fn bytes(&self) -> &[u8]
        ensures { result.now ≡ self.now }
    {
        self.bytes.as_slice()
    }

    pub fn len(&self) -> usize
        ensures { result ≡ length self.now }
    {
        self.bytes.len()
    }

    pub fn is_empty(&self) -> bool
        ensures { result ≡ (length self.now == 0) }
    {
        self.bytes.is_empty()
    }

    /// The bytes, given back. It takes no memory.
    pub fn into_bytes(self) -> Vec<u8>
        ensures { result.items ≡ self }
    {
        self.bytes
    }
}
