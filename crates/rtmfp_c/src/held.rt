//! A node in the heap as one word, which C can hold.

ghost use Rattle.std.specs.Prelude.{◌≡◌, Option, Some, None, is_some, true};
ghost use Rattle.std.specs.Coded.{coded_option};
ghost use Rattle.rtmfp_c.specs.contracts.node.Node.{the_row};

use crate::node::Node;
use boxed_word::loose::Loose;
use std::alloc::Global;
use std::marker::Model;
use std::ptr::null_mut;

/// A node in the heap, as the address of its block, or nothing. It owns the node.
#[repr(C)]
#[derive(Drop)]
pub struct Held {
    at: *mut u8,
    pub ghost node: { Option the_row.Denot } by { coded_option the_row.coded },
}

impl Model for Held {
    ghost use Rattle.rtmfp_c.specs.Owning.{holds};
    ghost use Rattle.rtmfp_c.specs.contracts.node.Node.{the_row};

    ghost also_owns = { λ h. holds the_row h.at h.node };
}

impl Held {
    /// Nothing.
    pub(crate) fn empty() -> Held
        ensures { result.node ≡ None }
    {
        Held { at: null_mut() }
    }

    /// Forgets what stands there, but not that it is owned.
    pub(crate) fn of(node: Loose<Node, Global>) -> Held
        ensures { result.node ≡ Some node.value }
    {
        let Loose { at, alloc: _ } = node;
        Held { at: at as *mut u8 }
    }

    /// Knows it again.
    pub(crate) fn loose(self, alloc: Global) -> Loose<Node, Global>
        requires { is_some self.node ≡ true }
        ensures { Some result.value ≡ self.node }
    {
        let Held { at } = self;
        Loose {
            at: at as *mut Node,
            alloc,
        }
    }
}
