// What a line is answered, unless it is refused.
#[derive(Clone, Copy, PartialEq, Eq, Debug)]
pub enum Answer {
    // done, and nothing to tell
    Done,
    // a rank: −1 to 255
    Rank(i16),
    // how many buses and posts a block has
    Block { buses: u16, posts: u16 },
    Shortfall(u32),
}
