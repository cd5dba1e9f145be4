ghost use Rattle.std.specs.Prelude.{◌≡◌, ◌<◌, ◌≤◌, Some};
ghost use Rattle.stores.specs.declared.pairs.Side.TheVariants.{Post as post_side};
ghost use Rattle.table.specs.Buses.{on_side, is_on, SomeTurned, BusSettled, BusesSettled};

use rules::Rule;
use stores::pairs::{Pair, Side};
use stores::views::{Store, View};

// Does this side carry the pair?
pub(crate) fn carries<S: View>(view: &S, pair: Pair, side: Side) -> bool
    ensures { result ≡ is_on side ((S.means view.now).standing pair.bus pair.post) }
{
    view.stands(pair) == Ok(Some(side))
}

// How many pairs of a bus this side carries.
pub(crate) fn count_on<S: View>(view: &S, bus: u16, side: Side) -> u16
    ensures count { result ≡ on_side (S.means view.now) side bus }
    ensures few { result ≤ 256 }
{
    (0..view.posts())
        .map(|post| u16::from(carries(view, Pair { bus, post }, side)))
        .sum()
}

// The first post that carries a pair of the bus.
pub(crate) fn first_carrying<S: View>(view: &S, bus: u16) -> u16
    requires { 0 < on_side (S.means view.now) post_side bus }
    ensures { (S.means view.now).standing bus result ≡ Some post_side }
{
    (0..view.posts())
        .find(|&post| carries(view, Pair { bus, post }, Side::Post))
        .unwrap_or(0)
}

// Turns the first pairs of a bus that this side carries, so many of them.
pub(crate) fn turn_some<S: Store>(store: &mut S, bus: u16, side: Side, count: u16)
    requires bus { bus < (S.means store.old).buses }
    requires enough { count ≤ on_side (S.means store.old) side bus }
    ensures room { S.room store.new ≡ S.room store.old }
    ensures turned { SomeTurned (S.means store.old) (S.means store.new) bus side count }
{
    let mut left = count;
    for post in 0..store.posts() {
        let pair = Pair { bus, post };
        if left > 0 && carries(store, pair, side) {
            let _ = store.turn(pair);
            left -= 1;
        }
    }
}

// Makes a bus carry the lesser of its limit and its number of pairs, and turns no more than it must.
fn settle_bus<S: Store>(store: &mut S, bus: u16, limit: u32)
    requires { bus < (S.means store.old).buses }
    ensures room { S.room store.new ≡ S.room store.old }
    ensures settled { BusSettled (S.means store.old) (S.means store.new) bus limit }
{
    let own = count_on(store, bus, Side::Bus);
    let others = count_on(store, bus, Side::Post);
    let aim = limit.min(u32::from(own) + u32::from(others)) as u16;
    if own < aim {
        turn_some(store, bus, Side::Post, aim - own);
    } else {
        turn_some(store, bus, Side::Bus, own - aim);
    }
}

// Makes every bus carry the lesser of its limit and its number of pairs.
pub(crate) fn settle_buses<S: Store, R: Rule>(store: &mut S, rule: &R)
    ensures room { S.room store.new ≡ S.room store.old }
    ensures settled { BusesSettled (S.means store.old) (S.means store.new) (R.limits rule.now) }
{
    for bus in 0..store.buses() {
        settle_bus(store, bus, rule.bus_limit(bus));
    }
}
