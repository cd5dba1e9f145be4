ghost use Rattle.std.specs.Prelude.{◌≡◌};
ghost use Rattle.stores.specs.Exchange.{exchanged, faced};
ghost use Rattle.stores.specs.Exchanges.{exchanged_bounded};

use crate::faults::StoreFault;
use crate::pairs::{Pair, Side, other_end};
use crate::views::{Store, View};

// A store the other way round: its buses are posts and its posts are buses.
#[derive(Drop)]
pub struct Swap<S>(S);

// A fault of the store below, in the numbers of the swap.
fn face_fault(fault: StoreFault) -> StoreFault
    ensures { result ≡ faced fault }
{
    match fault {
        StoreFault::NoBus(pair) => StoreFault::NoPost(pair.swapped()),
        StoreFault::NoPost(pair) => StoreFault::NoBus(pair.swapped()),
        StoreFault::Stands(pair) => StoreFault::Stands(pair.swapped()),
        StoreFault::Absent(pair) => StoreFault::Absent(pair.swapped()),
        StoreFault::Full(pair) => StoreFault::Full(pair.swapped()),
    }
}

impl<S: Store> Swap<S> {
    pub fn over(store: S) -> Swap<S>
        ensures { result.0 ≡ store }
    {
        Swap(store)
    }

    // The store below, as it is.
    pub fn into_inner(self) -> S
        ensures { result ≡ self.0 }
    {
        let Swap(inner) = self;
        inner
    }
}

// The swap's own numbers are looked at first, since the store below looks at its own bus first, which is the swap's post.
impl<S: View> View for Swap<S> {
    ghost means = { λ s. exchanged (S.means s.0) };

    ghost bounded = { λ s. exchanged_bounded _ (S.bounded s.0) };

    fn buses(&self) -> u16 {
        self.0.posts()
    }

    fn posts(&self) -> u16 {
        self.0.buses()
    }

    fn stands(&self, pair: Pair) -> Result<Option<Side>, StoreFault> {
        self.admit(pair)?;
        let standing = self.0.stands(pair.swapped()).map_err(face_fault)?;
        Ok(other_end(standing))
    }
}

impl<S: Store> Store for Swap<S> {
    ghost room = { λ s. S.room s.0 };

    fn add(&mut self, pair: Pair, side: Side) -> Result<(), StoreFault> {
        self.admit(pair)?;
        self.0
            .add(pair.swapped(), side.opposite())
            .map_err(face_fault)
    }

    fn drop(&mut self, pair: Pair) -> Result<(), StoreFault> {
        self.admit(pair)?;
        self.0.drop(pair.swapped()).map_err(face_fault)
    }

    fn turn(&mut self, pair: Pair) -> Result<(), StoreFault> {
        self.admit(pair)?;
        self.0.turn(pair.swapped()).map_err(face_fault)
    }

    fn room(&self) -> usize {
        self.0.room()
    }
}
