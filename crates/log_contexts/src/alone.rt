//! Of each tag, whether one thing alone began with it.

ghost use Rattle.std.specs.Prelude.{◌≡◌, [], OnOk, OnErr};
ghost use Rattle.std.specs.Map.{lookup};
ghost use Rattle.std.specs.Str.{bytes_eq};
ghost use Rattle.log_contexts.specs.Alone.{HasNoted, noted};

use rtmfp_base::Memory;
use std::alloc::Global;
use std::collections::HashMap;
use std::marker::Model;

/// The session ID under which alone something began with a tag, or that there were several (own).
///
/// Contracts see the tags in no order, each once, with their session IDs.
#[derive(Drop)]
pub(crate) struct Alone {
    map: HashMap<[u8; 16], Option<u32>>,
}

impl Model for Alone {
    ghost use Rattle.log_contexts.specs.Alone.{AloneTable};

    ghost Value = { AloneTable };

    ghost view = { λ a. a.map.entries };
}

impl Alone {
    /// Nothing began. It takes no memory.
    pub(crate) fn new(alloc: Global) -> Alone
        ensures { result ≡ [] }
    {
        Alone {
            map: HashMap::new(alloc),
        }
    }

    /// What is kept of a tag; None where nothing began with it.
    pub(crate) fn of(&self, tag: &[u8; 16]) -> Option<Option<u32>>
        ensures { result ≡ lookup (bytes_eq tag.now) self.now }
    {
        self.map.get(tag).copied()
    }

    /// Something begins under this session ID with this tag.
    pub(crate) fn note(&mut self, near: u32, tag: [u8; 16]) -> Result<(), Memory>
        ensures ok { OnOk result (HasNoted near tag self.old self.new) }
        ensures err { OnErr result (self.new ≡ self.old) }
    {
        let which = noted(near, self.of(&tag));
        let Ok(_) = self.map.insert(tag, which) else {
            return Err(Memory);
        };
        Ok(())
    }
}

/// What is kept of a tag with which something begins under this session ID.
fn noted(near: u32, before: Option<Option<u32>>) -> Option<u32>
    ensures { result ≡ noted near before }
{
    match before {
        None => Some(near),
        Some(None) => None,
        Some(Some(other)) => { if other == near { Some(near) } else { None } }
    }
}
