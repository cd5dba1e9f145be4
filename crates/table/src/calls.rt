use crate::faults::TableFault;
use stores::pairs::{Pair, Side};

// What is asked of a table.
#[derive(Clone, Copy, PartialEq, Eq, Debug)]
pub enum Call {
    // make the sides even
    Settle,
    Add(Pair),
    Drop(Pair),
    // how a pair stands
    Side(Pair),
    Rank { node: u16 },
    // how many buses and posts the block of a level has
    Block { level: u16 },
    // the first member of the block of a level from a node on
    Member { level: u16, node: u16 },
    Shortfall { level: u16 },
}

// What an accepted call answers.
#[derive(Clone, Copy, PartialEq, Eq, Debug)]
pub enum Answer {
    // done, and nothing to tell
    Done,
    // the side that carries the pair, none where it is absent
    Side(Option<Side>),
    // −1 to 255
    Rank(i16),
    Block { buses: u16, posts: u16 },
    Member(Option<u16>),
    Shortfall(u32),
}

// One call of a list: what is asked, over how many working bytes, and what was answered, once it has been.
#[derive(Clone, Copy, PartialEq, Eq, Debug)]
pub struct Entry {
    pub call: Call,
    pub bytes: usize,
    pub answer: Option<Result<Answer, TableFault>>,
}
