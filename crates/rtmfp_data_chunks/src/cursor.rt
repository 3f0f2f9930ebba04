//! The walk over the chunks of a packet that tells what a next chunk stands behind.
ghost use Rattle.std.specs.Prelude.{◌≡◌, None, Result, IfOk};
ghost use Rattle.rtmfp_data_chunks.specs.declared.view.DataFault.{DataFault};
ghost use Rattle.rtmfp_data_chunks.specs.Chunk.{DataChunk, data_chunk};
ghost use Rattle.rtmfp_data_chunks.specs.Spelling.{DataReading, shown, before_next, IsOrdered};
ghost use Rattle.rtmfp_data_chunks.specs.Reader.{data_reading};
ghost use Rattle.rtmfp_data_chunks.specs.Writing.{IsDataChunk};

use crate::reading::read_kind;
use crate::user_data::{Numbers, UserData};
use crate::view::{DataFault, DataView};
use std::marker::Model;

/// Reads chunks of flows, each behind the one before it. Contracts see the numbers that a next
/// chunk would stand behind, of a data or next chunk that was read just before, or nothing.
#[derive(Drop)]
pub struct DataCursor {
    before: Option<Numbers>,
}

impl Model for DataCursor {
    ghost use Rattle.std.specs.Prelude.{Option};
    ghost use Rattle.rtmfp_data_chunks.specs.declared.user_data.Numbers.{Numbers};
    ghost use Rattle.rtmfp_data_chunks.specs.Spelling.{IsOrdered};

    ghost Value = { Option Numbers };

    ghost view = { λ c. c.before };

    ghost invariant = { λ c. IsOrdered c.before };
}

impl DataCursor {
    /// Nothing stands before the first chunk.
    pub fn new() -> DataCursor
        ensures { result ≡ None }
    {
        DataCursor { before: None }
    }

    /// A cursor that goes on behind these numbers, which another one had come to.
    pub fn behind(before: Option<Numbers>) -> DataCursor
        requires { IsOrdered before }
        ensures { result ≡ before }
    {
        DataCursor { before }
    }

    /// What a next chunk would stand behind here.
    pub fn before(&self) -> Option<Numbers>
        ensures exact { result ≡ self.now }
        ensures ordered { IsOrdered result }
    {
        self.before
    }

    /// Reads a chunk of type `kind` from its payload. What it gives are parts of the payload.
    pub fn read<'a>(&mut self, kind: u8, payload: &'a [u8]) -> Result<DataView<'a>, DataFault>
        // The payload reads so, and in no other way.
        ensures reads { DataReading self.old kind payload.now (shown result) }
        ensures only { (other : Result DataChunk DataFault) →
            DataReading self.old kind payload.now other → other ≡ shown result }

        // All of this as one function.
        ensures exact { shown result ≡ data_reading self.old kind payload.now }

        // What is read can be written.
        ensures whole { IfOk result (λ view. IsDataChunk (data_chunk view)) }

        // The next chunk stands behind this one.
        ensures behind { self.new ≡ before_next (shown result) }
    {
        let read = read_kind(self.before, kind, payload);
        self.before = before_next(&read);
        read
    }

    /// A chunk of no flow, or one that was refused, stands here.
    pub fn other(&mut self)
        ensures { self.new ≡ None }
    {
        self.before = None;
    }
}

/// What the chunk after this one stands behind.
fn before_next(read: &Result<DataView<'_>, DataFault>) -> Option<Numbers>
    ensures { result ≡ before_next (shown read.now) }
{
    match read {
        Ok(DataView::Data(user)) => Some(numbers(user)),
        Ok(DataView::Next(user)) => Some(numbers(user)),
        _ => None,
    }
}

fn numbers(user: &UserData<'_>) -> Numbers
    ensures { result ≡ record {
      flow = user.now.flow;
      seq = user.now.seq;
      forward = user.now.forward;
    } }
{
    Numbers {
        flow: user.flow,
        seq: user.seq,
        forward: user.forward,
    }
}
