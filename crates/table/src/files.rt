ghost use Rattle.std.specs.Prelude.{◌≡◌, ◌+◌, ◌*◌, ◌<◌, ◌≤◌, ◌++◌, length, drop};
ghost use Rattle.blocks.specs.Sums.{bit};
ghost use Rattle.stores.specs.Meaning.{stands};
ghost use Rattle.table.specs.Yards.{yard_of};
ghost use Rattle.table.specs.Files.{word, four_bytes, entry, row, pair_file, pair_count, Wrote, row_count};

use crate::buses::count_on;
use stores::pairs::{Pair, Side};
use stores::views::View;

// How many bytes the record of a pair has.
pub(crate) const RECORD: usize = 4;

// The record of a pair: nine bits of bus, nine of post, one set if the post carries it, thirteen zeros.
fn record(pair: Pair, by_post: bool) -> [u8; 4]
    requires { (pair.bus < 256) × (pair.post < 256) }
    ensures { result ≡ four_bytes (word pair.bus pair.post by_post) }
{
    let side = if by_post { 0x2000 } else { 0 };
    let word = u32::from(pair.bus) * 0x80_0000 + u32::from(pair.post) * 0x4000 + side;
    word.to_be_bytes()
}

// Writes a record at a place, and answers the place behind it: the last answer is what the call tells, so no cursor keeps it.
fn put(out: &mut [u8], at: usize, bytes: [u8; 4]) -> usize
    requires { at + 4 ≤ length out.old }
    ensures { Wrote out.old at bytes out.new result }
{
    out[at..at + RECORD].copy_from_slice(&bytes);
    at + RECORD
}

// Writes the record of a pair, if it stands.
fn put_pair<S: View>(view: &S, pair: Pair, out: &mut [u8], at: usize) -> usize
    requires pair { (pair.bus < (S.means view.now).buses) × (pair.post < (S.means view.now).posts) }
    requires room { at + 4 * bit (stands ((S.means view.now).standing pair.bus pair.post)) ≤ length out.old }
    ensures { Wrote out.old at (entry pair.bus pair.post ((S.means view.now).standing pair.bus pair.post)) out.new result }
{
    match view.stands(pair) {
        Ok(Some(side)) => put(out, at, record(pair, side == Side::Post)),
        _ => at,
    }
}

// Writes the records of a bus, ascending by post.
fn put_row<S: View>(view: &S, bus: u16, out: &mut [u8], at: usize) -> usize
    requires bus { bus < (S.means view.now).buses }
    requires room { at + 4 * row_count (S.means view.now) bus (S.means view.now).posts ≤ length out.old }
    ensures { Wrote out.old at (row (S.means view.now) bus (S.means view.now).posts) out.new result }
{
    let mut end = at;
    for post in 0..view.posts() {
        end = put_pair(view, Pair { bus, post }, out, end);
    }
    end
}

// Writes the records of all pairs, ascending by bus, then post, and answers how many bytes they are.
pub(crate) fn write_pairs<S: View>(view: &S, out: &mut [u8]) -> usize
    requires { 4 * pair_count (yard_of (S.means view.now)) ≤ length out.old }
    ensures answer { result ≡ length (pair_file (S.means view.now)) }
    ensures bytes { out.new ≡ pair_file (S.means view.now) ++ drop (length (pair_file (S.means view.now))) out.old }
{
    let mut end = 0;
    for bus in 0..view.buses() {
        end = put_row(view, bus, out, end);
    }
    end
}

// How many pairs stand.
pub(crate) fn count_pairs<S: View>(view: &S) -> usize
    ensures count { result ≡ pair_count (yard_of (S.means view.now)) }
    ensures few { result ≤ 131072 }
{
    // `sum` would require a bound, which only the loop's invariant gives.
    let mut count: usize = 0;
    for bus in 0..view.buses() {
        count += usize::from(count_on(view, bus, Side::Bus))
            + usize::from(count_on(view, bus, Side::Post));
    }
    count
}
