ghost use Rattle.std.specs.Prelude.{◌≡◌, ℕ};
ghost use Rattle.stores.specs.Meaning.{Meaning, Bounded};
ghost use Rattle.stores.specs.Promises.{Admitted, Told, Added, Dropped, Turned};

use crate::faults::StoreFault;
use crate::pairs::{Pair, Side};

// What a report may ask of a store: its sizes, and how a pair stands.
pub trait View {
    // what the store means: its sizes, and how each pair stands
    ghost means: { Self → Meaning };

    fn buses(&self) -> u16
        ensures { result ≡ (means self.now).buses };

    fn posts(&self) -> u16
        ensures { result ≡ (means self.now).posts };

    // Refuses a pair that names a bus or a post outside the sizes.
    fn admit(&self, pair: Pair) -> Result<(), StoreFault>
        ensures { Admitted (means self.now) pair.bus pair.post result }
    {
        if pair.bus >= self.buses() {
            return Err(StoreFault::NoBus(pair));
        }
        if pair.post >= self.posts() {
            return Err(StoreFault::NoPost(pair));
        }
        Ok(())
    }

    // The end that carries a pair, none where it is absent.
    fn stands(&self, pair: Pair) -> Result<Option<Side>, StoreFault>
        ensures { Told (means self.now) pair.bus pair.post result };

    ghost bounded: { (s : Self) → Bounded (means s) };
}

// A view that can be changed, one pair at a time.
pub trait Store: View {
    // the free places
    ghost room: { Self → ℕ };

    fn add(&mut self, pair: Pair, side: Side) -> Result<(), StoreFault>
        ensures { Added (Self.means self.old) (Self.means self.new) (room self.old) (room self.new) pair.bus pair.post side result };

    fn drop(&mut self, pair: Pair) -> Result<(), StoreFault>
        ensures { Dropped (Self.means self.old) (Self.means self.new) (room self.old) (room self.new) pair.bus pair.post result };

    fn turn(&mut self, pair: Pair) -> Result<(), StoreFault>
        ensures { Turned (Self.means self.old) (Self.means self.new) (room self.old) (room self.new) pair.bus pair.post result };

    fn room(&self) -> usize
        ensures { result ≡ room self.now };
}
