ghost use Rattle.std.specs.Prelude.{◌≡◌};
ghost use Rattle.stores.specs.Exchange.{facing};
ghost use Rattle.stores.specs.Meaning.{carried, other};

// One bus with one post. Pairs are ordered by bus, then post.
#[derive(Clone, Copy, PartialEq, Eq, PartialOrd, Ord, Debug)]
pub struct Pair {
    pub bus: u16,
    pub post: u16,
}

impl Pair {
    pub fn new(bus: u16, post: u16) -> Pair
        ensures { result ≡ record { bus = bus; post = post } }
    {
        Pair { bus, post }
    }

    // The pair the other way round.
    pub fn swapped(self) -> Pair
        ensures { result ≡ record { bus = self.post; post = self.bus } }
    {
        Pair {
            bus: self.post,
            post: self.bus,
        }
    }
}

// The end of a pair that carries it. A pair that stands has one, so how a pair stands is an `Option<Side>`.
#[derive(Clone, Copy, PartialEq, Eq, Debug)]
pub enum Side {
    Bus,
    Post,
}

impl Side {
    // The side on the other end.
    pub fn opposite(self) -> Side
        ensures faces { result ≡ facing self }
        ensures carries { carried result ≡ other (carried self) }
    {
        match self {
            Side::Bus => Side::Post,
            Side::Post => Side::Bus,
        }
    }
}

// How a pair stands that goes over to its other end.
pub fn other_end(standing: Option<Side>) -> Option<Side>
    ensures { result ≡ other standing }
{
    standing.map(Side::opposite)
}
