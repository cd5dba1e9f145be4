ghost use Rattle.std.specs.Prelude.{◌≡◌};
ghost use Rattle.stores.specs.Faults.{named_pair};

use crate::pairs::Pair;

// Why a store refuses a call. Each case holds the pair that was named to that store; the numbers are in specs/Faults.
#[derive(Clone, Copy, PartialEq, Eq, Debug)]
pub enum StoreFault {
    // 11: no such bus
    NoBus(Pair),
    // 12: no such post
    NoPost(Pair),
    // 13: the pair stands already
    Stands(Pair),
    // 14: the pair does not stand
    Absent(Pair),
    // 15: no room
    Full(Pair),
}

impl StoreFault {
    // The pair that was named.
    pub fn pair(self) -> Pair
        ensures { result ≡ named_pair self }
    {
        match self {
            StoreFault::NoBus(pair)
            | StoreFault::NoPost(pair)
            | StoreFault::Stands(pair)
            | StoreFault::Absent(pair)
            | StoreFault::Full(pair) => pair,
        }
    }
}
