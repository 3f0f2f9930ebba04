//! A source over any reader, as standard input.
ghost use Rattle.std.specs.Prelude.{◌≡◌, None};

use crate::{Source, Taken};
use std::io::Read;

/// A reader of the outside. It tells nothing of the bytes that are left.
#[derive(Drop)]
pub struct StreamSource<R: Read + Drop> {
    reader: R,
    faults: u64,
}

impl<R: Read + Drop> StreamSource<R> {
    /// A source of what the reader gives.
    pub fn new(reader: R) -> StreamSource<R>
        ensures { result.faults ≡ 0 }
    {
        StreamSource { reader, faults: 0 }
    }
}

impl<R: Read + Drop> Source for StreamSource<R> {
    ghost seen = { λ s. record { left = None; asked = None; faults = s.faults } };

    fn read(&mut self, buf: &mut [u8]) -> Taken {
        match self.reader.read(buf) {
            Ok(0) => Taken::End,
            Ok(count) => Taken::Done(count),
            Err(_) => {
                self.faults = self.faults.saturating_add(1);
                Taken::Failed
            }
        }
    }
}
