// A pair store of records of its own, up to 1,024 of them.
#![tactic(auto)]

ghost use Rattle.std.specs.Prelude.{◌≡◌, ◌+◌, ◌-◌, ◌≤◌};
ghost use Rattle.arrayvec.specs.ArrayVec.{array_vec_len};
ghost use Rattle.stores.specs.Meaning.{empty, standing_count};
ghost use Rattle.rolls.specs.Rolls.{Ascending, Found, Inside, Opened, key, meaning};
ghost use Rattle.rolls.specs.Entries.{bounded};

use arrayvec::ArrayVec;
use stores::faults::StoreFault;
use stores::pairs::{Pair, Side};
use stores::views::{Store, View};

// A standing pair and the end that carries it.
#[derive(Clone, Copy)]
struct Entry {
    pair: Pair,
    side: Side,
}

// What fills the places behind the entries.
impl Default for Entry {
    fn default() -> Entry {
        Entry {
            pair: Pair::new(0, 0),
            side: Side::Bus,
        }
    }
}

// A store that keeps records of its own, in the order of their pairs.
#[derive(Drop)]
pub struct Roll {
    entries: ArrayVec<Entry, 1024>,
    buses: u16,
    posts: u16,
    capacity: u16,
    ghost few_buses: { buses ≤ 256 },
    ghost few_posts: { posts ≤ 256 },
    ghost bounded: { capacity ≤ 1024 },
    ghost within: { array_vec_len entries ≤ capacity },
    ghost ascending: { Ascending entries.items },
    ghost inside: { Inside entries.items buses posts },
}

impl Roll {
    // A size outside 1 to 256 makes the roll void; a capacity above 1,024 counts as 1,024.
    pub fn new(buses: u16, posts: u16, capacity: u16) -> Roll
        ensures { Opened buses posts capacity (⟦<Roll as View>⟧.means result) (⟦<Roll as Store>⟧.room result) }
    {
        if (1..=256).contains(&buses) && (1..=256).contains(&posts) {
            Roll::cleared(buses, posts, capacity.min(1024))
        } else {
            Roll::cleared(0, 0, 0)
        }
    }

    fn cleared(buses: u16, posts: u16, capacity: u16) -> Roll
        requires { (buses ≤ 256) × ((posts ≤ 256) × (capacity ≤ 1024)) }
        ensures means { meaning result.entries.items result.buses result.posts ≡ empty buses posts }
        ensures room { result.capacity - array_vec_len result.entries ≡ capacity }
    {
        Roll {
            entries: ArrayVec::new(),
            buses,
            posts,
            capacity,
        }
    }

    // The place of a pair's entry, or else the place where it would go.
    fn find(&self, pair: Pair) -> Result<usize, usize>
        ensures { Found self.now.entries.items pair result }
    {
        self.entries
            .binary_search_by_key(&sort_key(pair), |entry| sort_key(entry.pair))
    }
}

// A pair's place in the order as one number, so that a step of the search is one comparison.
fn sort_key(pair: Pair) -> u32
    ensures { result ≡ key pair }
{
    u32::from(pair.bus) << 16 | u32::from(pair.post)
}

impl View for Roll {
    ghost means = { λ r. meaning r.entries.items r.buses r.posts };

    ghost bounded = { λ s. bounded s.entries.items s.buses s.posts s.few_buses s.few_posts s.inside };

    fn buses(&self) -> u16 {
        self.buses
    }

    fn posts(&self) -> u16 {
        self.posts
    }

    fn stands(&self, pair: Pair) -> Result<Option<Side>, StoreFault> {
        self.admit(pair)?;
        // In a closure the index would have to ask for its bound.
        match self.find(pair) {
            Ok(at) => Ok(Some(self.entries[at].side)),
            Err(_) => Ok(None),
        }
    }
}

impl Store for Roll {
    ghost room = { λ r. r.capacity - array_vec_len r.entries };

    fn add(&mut self, pair: Pair, side: Side) -> Result<(), StoreFault> {
        self.admit(pair)?;
        let Err(at) = self.find(pair) else {
            return Err(StoreFault::Stands(pair));
        };
        if self.entries.len() >= usize::from(self.capacity) {
            return Err(StoreFault::Full(pair));
        }
        self.entries.insert(at, Entry { pair, side });
        Ok(())
    }

    fn drop(&mut self, pair: Pair) -> Result<(), StoreFault> {
        self.admit(pair)?;
        let Ok(at) = self.find(pair) else {
            return Err(StoreFault::Absent(pair));
        };
        self.entries.remove(at);
        Ok(())
    }

    fn turn(&mut self, pair: Pair) -> Result<(), StoreFault> {
        self.admit(pair)?;
        let Ok(at) = self.find(pair) else {
            return Err(StoreFault::Absent(pair));
        };
        self.entries[at].side = self.entries[at].side.opposite();
        Ok(())
    }

    // What the standing pairs leave of the capacity.
    fn room(&self) -> usize
        ensures left { result ≡ self.now.capacity - array_vec_len self.now.entries }
        ensures whole { result + standing_count (⟦<Roll as View>⟧.means self.now) ≡ self.now.capacity }
    {
        usize::from(self.capacity) - self.entries.len()
    }
}

#[cfg(test)]
mod tests {
    use super::*;

    #[test]
    fn capacities(rt: HostRuntime) {
        assert_eq!(rt; Roll::new(256, 1, 0).room(), 0);
        assert_eq!(rt; Roll::new(256, 1, 1024).room(), 1024);
        assert_eq!(rt; Roll::new(256, 1, 1025).room(), 1024);
        assert_eq!(rt; Roll::new(256, 1, 65535).room(), 1024);
    }

    #[test]
    fn one_place(rt: HostRuntime) {
        let mut roll = Roll::new(1, 2, 1);
        assert_eq!(rt; roll.add(Pair::new(0, 0), Side::Bus), Ok(()));
        assert_eq!(rt;
            roll.add(Pair::new(0, 1), Side::Post),
            Err(StoreFault::Full(Pair::new(0, 1)))
        );
        assert_eq!(rt; roll.drop(Pair::new(0, 0)), Ok(()));
        assert_eq!(rt; roll.add(Pair::new(0, 1), Side::Post), Ok(()));
        assert_eq!(rt; roll.turn(Pair::new(0, 1)), Ok(()));
        assert_eq!(rt; roll.stands(Pair::new(0, 1)), Ok(Some(Side::Bus)));
    }

    #[test]
    fn empty_and_void(rt: HostRuntime) {
        let mut empty = Roll::new(2, 2, 2);
        assert_eq!(rt;
            empty.turn(Pair::new(1, 1)),
            Err(StoreFault::Absent(Pair::new(1, 1)))
        );
        assert_eq!(rt;
            empty.stands(Pair::new(1, 2)),
            Err(StoreFault::NoPost(Pair::new(1, 2)))
        );
        let mut void = Roll::new(257, 1, 9);
        assert_eq!(rt; void.room(), 0);
        assert_eq!(rt;
            void.add(Pair::new(0, 0), Side::Bus),
            Err(StoreFault::NoBus(Pair::new(0, 0)))
        );
    }

    #[test]
    fn ascends(rt: HostRuntime) {
        let mut roll = Roll::new(3, 3, 3);
        assert_eq!(rt; roll.add(Pair::new(2, 0), Side::Bus), Ok(()));
        assert_eq!(rt; roll.add(Pair::new(0, 2), Side::Bus), Ok(()));
        assert_eq!(rt; roll.add(Pair::new(0, 1), Side::Bus), Ok(()));
        assert!(rt; roll.entries.len() == 3);
        assert_eq!(rt; roll.entries[0].pair, Pair::new(0, 1));
        assert_eq!(rt; roll.entries[1].pair, Pair::new(0, 2));
        assert_eq!(rt; roll.entries[2].pair, Pair::new(2, 0));
    }
}
