//! Where a node lies, while C holds it.
ghost use Rattle.std.specs.Prelude.{◌≡◌, Option, Some, None, is_some, true};
ghost use Rattle.someip_c_node.specs.Calls.{CNodeView};
ghost use Rattle.someip_c.specs.Codes.{coded_place};

use someip_c_node::CNode;
use std::alloc::Global;
use std::marker::Model;
use std::ptr;

/// A pointer to a node, or to nothing. Contracts see the node that it owns.
///
/// Where it owns a node, that is what a `Box` of the node owns: the node, and the right to free its block.
#[repr(C)]
#[derive(Drop)]
pub struct Place {
    at: *mut u8,
    pub ghost value: { Option CNodeView } by { coded_place },
}

impl Model for Place {
    ghost use Rattle.someip_c.specs.Owned.{owned};

    ghost also_owns = { λ p. owned p.at p.value };
}

impl Place {
    /// A place of nothing.
    pub(crate) fn empty() -> Place
        ensures { result.value ≡ None }
    {
        Place {
            at: ptr::null_mut(),
        }
    }

    /// The place of a node, which it owns from now on.
    pub(crate) fn of(node: Box<CNode>) -> Place
        ensures { result.value ≡ Some node.value }
    {
        let at = Box::into_raw(node);
        Place { at: at as *mut u8 }
    }

    /// The node that it owned.
    pub(crate) fn into_box(self, alloc: Global) -> Box<CNode>
        requires { is_some self.value ≡ true }
        ensures { self.value ≡ Some result.value }
    {
        let Place { at } = self;
        unsafe { Box::from_raw(alloc, at as *mut CNode) }
    }
}
