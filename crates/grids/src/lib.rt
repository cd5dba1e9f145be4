// A pair store over bytes: two bits a pair, a row a bus.
#![tactic(auto)]

ghost use Rattle.std.specs.Prelude.{◌≡◌, ℕ, ◌+◌, ◌*◌, ◌/◌, ◌%◌, ◌<◌, ◌≤◌, None, length, slice_set};
ghost use Rattle.blocks.specs.Sums.{sum, bit};
ghost use Rattle.stores.specs.Meaning.{stands, by_post, carried, other, put, standing_count};
ghost use Rattle.stores.specs.Promises.{Added, Dropped, Turned};
ghost use Rattle.grids.specs.Cells.{row, fitting, cell_at, cell_means, row_part, rows_mean, grid_room, ByteWritten, CellWritten, BytesAfter, Opened};
ghost use Rattle.grids.specs.Sizes.{rows_bounded};

use std::convert::AsSlice;
use stores::faults::StoreFault;
use stores::pairs::{Pair, Side};
use stores::views::{Store, View};

#[cfg(test)]
mod tests;

// Bytes that a grid works on: lent to it, or its own.
pub trait Memory: AsSlice<u8> {
    // A write beyond the end changes nothing.
    fn put(&mut self, at: usize, value: u8)
        ensures after { Self.items self.new ≡ slice_set (Self.items self.old) at value }
        ensures len { length (Self.items self.new) ≡ length (Self.items self.old) };
}

// std's `AsMut` promises nothing of what is written, so each kind of memory says how it is written.
impl Memory for &mut [u8] {
    fn put(&mut self, at: usize, value: u8) {
        let bytes = &mut **self;
        if at < bytes.len() {
            bytes[at] = value;
        }
    }
}

impl<const N: usize> Memory for [u8; N] {
    fn put(&mut self, at: usize, value: u8) {
        if at < self.len() {
            self[at] = value;
        }
    }
}

// A store over bytes. Made with a size outside 1 to 256, or over too few bytes, it is void: no buses, no posts, no room.
#[derive(Drop)]
pub struct Grid<M: Memory> {
    memory: M,
    buses: u16,
    posts: u16,
    ghost few_buses: { buses ≤ 256 },
    ghost few_posts: { posts ≤ 256 },
    ghost fits: { buses * row posts ≤ length (M.items memory) },
}

// The bytes of a row.
fn row_len(posts: u16) -> usize
    ensures { result ≡ row posts }
{
    usize::from(posts).div_ceil(4)
}

// Sizes in range, and bytes enough for the rows.
fn fits(len: usize, buses: u16, posts: u16) -> bool
    ensures { result ≡ fitting len buses posts }
{
    (1..=256).contains(&buses)
        && (1..=256).contains(&posts)
        && usize::from(buses) * row_len(posts) <= len
}

// How the pair of a post stands, in the row of its bus.
fn read_cell(row: &[u8], post: u16) -> Option<Side>
    requires { post / 4 < length row.now }
    ensures { result ≡ cell_means row.now (2 * post) }
{
    let cell = (row[usize::from(post / 4)] >> (6 - 2 * (post % 4))) % 4;
    // What `_` would leave of a number has no name that a proof could cite, so these are tests and no `match`.
    if cell < 2 {
        None
    } else if cell == 2 {
        Some(Side::Bus)
    } else {
        Some(Side::Post)
    }
}

// The two bits of a cell, as a number.
fn cell_bits(standing: Option<Side>) -> u8
    ensures { result ≡ 2 * bit (stands standing) + bit (by_post standing) }
{
    match standing {
        None => 0,
        Some(Side::Bus) => 2,
        Some(Side::Post) => 3,
    }
}

// A byte with the cell of a post written.
fn with_cell(byte: u8, post: u16, standing: Option<Side>) -> u8
    ensures { ByteWritten byte result (post % 4) standing }
{
    let shift = 6 - 2 * (post % 4);
    (byte & !(3u8 << shift)) | (cell_bits(standing) << shift)
}

// Writes the cell of a pair.
fn write_cell<M: Memory>(memory: &mut M, posts: u16, pair: Pair, standing: Option<Side>)
    requires { pair.bus * row posts + pair.post / 4 < length (M.items memory.old) }
    ensures { CellWritten (M.items memory.old) (M.items memory.new) (cell_at posts pair.bus pair.post) standing }
{
    let at = usize::from(pair.bus) * row_len(posts) + usize::from(pair.post / 4);
    let byte = with_cell(memory.as_slice()[at], pair.post, standing);
    memory.put(at, byte);
}

// How many pairs of a row stand.
fn standing_in(row: &[u8], posts: u16) -> usize
    requires { posts ≤ 4 * length row.now }
    ensures { result ≡ sum posts (λ p. bit (stands (cell_means row.now (2 * p)))) }
{
    // Loops here and in `room`: `sum` would require a bound, which only their invariants give.
    let mut count = 0;
    for post in 0..posts {
        count += usize::from(read_cell(row, post).is_some());
    }
    count
}

impl<M: Memory> Grid<M> {
    pub fn over(memory: M, buses: u16, posts: u16) -> Grid<M>
        ensures keeps { result.memory ≡ memory }
        ensures opened { Opened (M.items memory) buses posts (⟦<Grid<M> as View>⟧.means result) }
    {
        let (buses, posts) = if fits(memory.as_slice().len(), buses, posts) {
            (buses, posts)
        } else {
            (0, 0)
        };
        Grid {
            memory,
            buses,
            posts,
        }
    }

    // The memory, its bytes as they are.
    pub fn into_memory(self) -> M
        ensures { result ≡ self.memory }
    {
        let Grid { memory, .. } = self;
        memory
    }

    // The row of a bus, lent to the reader of its cells.
    fn row(&self, bus: u16) -> &[u8]
        requires { bus < self.now.buses }
        ensures part { result.now ≡ row_part (M.items self.now.memory) self.now.posts bus }
        ensures len { length result.now ≡ row self.now.posts }
    {
        let len = row_len(self.posts);
        let start = usize::from(bus) * len;
        &self.memory.as_slice()[start..start + len]
    }

    // Puts a pair on a side, or on none.
    fn write(&mut self, pair: Pair, standing: Option<Side>)
        requires { (pair.bus < self.old.buses) × (pair.post < self.old.posts) }
        ensures sizes { (self.new.buses ≡ self.old.buses) × (self.new.posts ≡ self.old.posts) }
        ensures cell { CellWritten (M.items self.old.memory) (M.items self.new.memory) (cell_at self.old.posts pair.bus pair.post) standing }
        ensures means { ⟦<Grid<M> as View>⟧.means self.new ≡ put pair.bus pair.post standing (⟦<Grid<M> as View>⟧.means self.old) }
        ensures room { ⟦<Grid<M> as Store>⟧.room self.new + bit (stands standing) ≡ ⟦<Grid<M> as Store>⟧.room self.old + bit (stands ((⟦<Grid<M> as View>⟧.means self.old).standing pair.bus pair.post)) }
    {
        write_cell(&mut self.memory, self.posts, pair, standing);
    }
}

impl<M: Memory> View for Grid<M> {
    ghost means = { λ g. rows_mean (M.items g.memory) g.buses g.posts };

    ghost bounded = { λ g. rows_bounded (M.items g.memory) g.buses g.posts g.few_buses g.few_posts };

    fn buses(&self) -> u16 {
        self.buses
    }

    fn posts(&self) -> u16 {
        self.posts
    }

    fn stands(&self, pair: Pair) -> Result<Option<Side>, StoreFault> {
        self.admit(pair)?;
        Ok(read_cell(self.row(pair.bus), pair.post))
    }
}

impl<M: Memory> Store for Grid<M> {
    ghost room = { λ g. grid_room (rows_mean (M.items g.memory) g.buses g.posts) };

    fn add(&mut self, pair: Pair, side: Side) -> Result<(), StoreFault>
        ensures does { Added (⟦<Grid<M> as View>⟧.means self.old) (⟦<Grid<M> as View>⟧.means self.new) (⟦<Grid<M> as Store>⟧.room self.old) (⟦<Grid<M> as Store>⟧.room self.new) pair.bus pair.post side result }
        ensures cells { BytesAfter (M.items self.old.memory) (M.items self.new.memory) (cell_at self.old.posts pair.bus pair.post) (carried side) result }
    {
        if self.stands(pair)?.is_some() {
            return Err(StoreFault::Stands(pair));
        }
        self.write(pair, Some(side));
        Ok(())
    }

    fn drop(&mut self, pair: Pair) -> Result<(), StoreFault>
        ensures does { Dropped (⟦<Grid<M> as View>⟧.means self.old) (⟦<Grid<M> as View>⟧.means self.new) (⟦<Grid<M> as Store>⟧.room self.old) (⟦<Grid<M> as Store>⟧.room self.new) pair.bus pair.post result }
        ensures cells { BytesAfter (M.items self.old.memory) (M.items self.new.memory) (cell_at self.old.posts pair.bus pair.post) None result }
    {
        if self.stands(pair)?.is_none() {
            return Err(StoreFault::Absent(pair));
        }
        self.write(pair, None);
        Ok(())
    }

    fn turn(&mut self, pair: Pair) -> Result<(), StoreFault>
        ensures does { Turned (⟦<Grid<M> as View>⟧.means self.old) (⟦<Grid<M> as View>⟧.means self.new) (⟦<Grid<M> as Store>⟧.room self.old) (⟦<Grid<M> as Store>⟧.room self.new) pair.bus pair.post result }
        ensures cells { BytesAfter (M.items self.old.memory) (M.items self.new.memory) (cell_at self.old.posts pair.bus pair.post) (other ((⟦<Grid<M> as View>⟧.means self.old).standing pair.bus pair.post)) result }
    {
        let Some(side) = self.stands(pair)? else {
            return Err(StoreFault::Absent(pair));
        };
        self.write(pair, Some(side.opposite()));
        Ok(())
    }

    fn room(&self) -> usize {
        let mut count = 0;
        for bus in 0..self.buses {
            count += standing_in(self.row(bus), self.posts);
        }
        usize::from(self.buses) * usize::from(self.posts) - count
    }
}
