//! What C holds of a node.
ghost use Rattle.std.specs.Prelude.{◌≡◌, Some, None, IfSome, IfNone, is_some, true, false};

use crate::place::Place;
use someip_c_node::CNode;
use std::alloc::Global;
use std::mem;

/// What C holds of a node: it has none, or one.
///
/// C makes it of zeros, and then only hands it on: it has none, until a start gives it one.
#[repr(C)]
pub struct Handle {
    held: bool,
    place: Place,
    ghost agrees: { is_some place.value ≡ held },
}

impl Handle {
    /// Takes the node out, if it has one. It has none after that.
    pub(crate) fn open(&mut self, alloc: Global) -> Option<Box<CNode>>
        ensures some { IfSome result (λ node. self.old.place.value ≡ Some node.value) }
        ensures none { IfNone result (self.old.place.value ≡ None) }
        ensures left { self.new.place.value ≡ None }
    {
        if !self.held {
            return None;
        }
        let place = mem::replace(&mut self.place, Place::empty());
        self.held = false;
        Some(place.into_box(alloc))
    }

    /// Gives it a node. It has none before.
    pub(crate) fn hold(&mut self, node: Box<CNode>)
        requires { self.old.place.value ≡ None }
        ensures { self.new.place.value ≡ Some node.value }
    {
        self.place = Place::of(node);
        self.held = true;
    }
}
