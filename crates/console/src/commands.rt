use stores::pairs::Pair;

// What a line asks for.
#[derive(Clone, Copy, PartialEq, Eq, Debug)]
pub enum Command {
    // t: open a table
    Open { buses: u16, posts: u16, limit: u16 },
    // a: add a pair
    Add(Pair),
    // d: drop a pair
    Drop(Pair),
    // b: the rank of a bus
    BusRank { bus: u16 },
    // p: the rank of a post
    PostRank { post: u16 },
    // k: the block of a level
    Block { level: u16 },
    // s: the shortfall of a level
    Shortfall { level: u16 },
}
