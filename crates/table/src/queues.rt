ghost use Rattle.std.specs.Prelude.{◌≡◌, []};

use arrayvec::ArrayVec;

// A node that a search has found, and the place in the order found that it was found from: its own place at a start.
#[derive(Clone, Copy, Default)]
pub struct Found {
    pub(crate) node: u16,
    pub(crate) from: u16,
}

// What a search has found, in the order found. The leads of those before `next` have been followed.
#[derive(Drop)]
pub struct Queue {
    pub(crate) found: ArrayVec<Found, 512>,
    pub(crate) next: usize,
}

impl Queue {
    // Nothing found yet.
    pub(crate) fn new() -> Queue
        ensures { (result.found.items ≡ []) × (result.next ≡ 0) }
    {
        Queue {
            found: ArrayVec::new(),
            next: 0,
        }
    }
}
