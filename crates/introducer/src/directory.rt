//! What an introducer knows of other ends.

ghost use Rattle.std.specs.Prelude.{◌≡◌, ◌≤◌, Err, OnOk, OnErr, IfErr, IfSome, IfNone, length};
ghost use Rattle.std.specs.Option.{option_copied};
ghost use Rattle.std.specs.FinMap.{get, len};
ghost use Rattle.introducer.specs.Directory.{new_directory, is_full_for, row_refusal, with_row, last_kept, with_kept, without_kept};

use crate::kept_sessions::KeptSessions;
use crate::refusal::RowRefusal;
use crate::rows::Rows;
use identity::Epd;
use rtmfp_base::Memory;
use rtmfp_base::limits::CANDIDATES;
use rtmfp_forms::Address;
use std::alloc::Global;
use std::marker::Model;

/// The most rows.
const MOST_ROWS: usize = 1024;

/// Rows of addresses, and the sessions that are kept. Contracts see both as finite maps from
/// fingerprints.
#[derive(Drop)]
pub struct Directory {
    rows: Rows,
    kept: KeptSessions,
}

impl Model for Directory {
    ghost use Rattle.std.specs.Prelude.{◌≤◌};
    ghost use Rattle.std.specs.FinMap.{len};
    ghost use Rattle.rtmfp_forms.specs.contracts.address.Address as address_type;
    ghost use Rattle.introducer.specs.Directory.{DirectoryState, directory_code};

    ghost Value = { DirectoryState };

    ghost coded = { directory_code address_type.the_row.coded };

    ghost view = { λ d. record { rows = d.rows; kept = d.kept } };

    ghost invariant = { λ d. len d.rows ≤ 1024 };
}

impl Directory {
    /// No row is there, and no session is kept. It takes no memory.
    pub fn new(alloc: Global) -> Directory
        ensures { result ≡ new_directory }
    {
        Directory {
            rows: Rows::new(alloc),
            kept: KeptSessions::new(alloc),
        }
    }

    /// How many rows there are, at most 1,024.
    pub fn rows(&self) -> usize
        ensures count { result ≡ len self.now.rows }
        ensures limit { result ≤ 1024 }
    {
        self.rows.len()
    }

    /// Why `add_row` would refuse a row of this fingerprint with so many addresses, but for want of
    /// memory (own); None exactly where it would not. It changes nothing and takes no memory.
    pub fn row_refusal(&self, print: &[u8; 32], count: usize) -> Option<RowRefusal>
        ensures { result ≡ row_refusal self.now.rows print.now count }
    {
        if count == 0 || count > CANDIDATES {
            return Some(RowRefusal::Candidates(count as u64));
        }
        if self.is_full_for(print) {
            return Some(RowRefusal::RowsFull(self.rows.len() as u64));
        }
        None
    }

    /// Whether there are as many rows as may be, and none of this fingerprint.
    fn is_full_for(&self, print: &[u8; 32]) -> bool
        ensures { result ≡ is_full_for self.now.rows print.now }
    {
        self.rows.len() == MOST_ROWS && !self.rows.has(print)
    }

    /// Adds a row of addresses, in their order and as they are, instead of one of the same
    /// fingerprint (own). `RowRefusal` has the reasons why not, in their order.
    pub fn add_row(&mut self, print: [u8; 32], addresses: &[Address]) -> Result<(), RowRefusal>
        ensures ok { OnOk result (self.new ≡ with_row self.old print addresses.now) }
        ensures refused { IfSome (row_refusal self.old.rows print (length addresses.now))
            (λ refusal. result ≡ Err refusal) }
        ensures memory { IfNone (row_refusal self.old.rows print (length addresses.now))
            (IfErr result (λ refusal. refusal ≡ RowRefusal.Memory)) }
        ensures err { OnErr result (self.new ≡ self.old) }
    {
        if let Some(refusal) = self.row_refusal(&print, addresses.len()) {
            return Err(refusal);
        }
        match self.rows.put(print, addresses) {
            Ok(()) => Ok(()),
            Err(_) => Err(RowRefusal::Memory),
        }
    }

    /// Notes that a session with the end of this fingerprint is kept, under this session ID (own).
    pub fn keep(&mut self, print: [u8; 32], near: u32) -> Result<(), Memory>
        ensures ok { OnOk result (self.new ≡ with_kept self.old print near) }
        ensures err { OnErr result (self.new ≡ self.old) }
    {
        self.kept.insert(&print, near)?;
        Ok(())
    }

    /// Notes that the session under this session ID has ended (own). It takes no memory.
    pub fn gone(&mut self, near: u32)
        ensures { self.new ≡ without_kept self.old near }
    {
        self.kept.remove(near);
    }

    /// The session ID of the session that was kept last with the end that a discriminator selects,
    /// and isn't gone (RFC 7016 section 3.5.1.5). It takes no memory.
    pub fn forward(&self, epd: &Epd) -> Option<u32>
        ensures { result ≡ last_kept self.now.kept epd.now.print }
    {
        self.kept.last(&epd.print)
    }

    /// The addresses of the row of the end that a discriminator selects, at most 16 (RFC 7016
    /// section 3.5.1.4). It takes no memory.
    pub fn redirect(&self, epd: &Epd) -> Option<&[Address]>
        ensures row { option_copied result ≡ get self.now.rows epd.now.print }
        ensures few { IfSome result (λ addresses. length addresses.now ≤ 16) }
    {
        self.rows.at(&epd.print)
    }
}
