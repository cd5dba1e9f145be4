ghost use Rattle.std.specs.Prelude.{◌≡◌, ◌+◌, ◌<◌, ◌≤◌, length};
ghost use Rattle.stores.specs.declared.pairs.Side.TheVariants.{Post as post_side};
ghost use Rattle.table.specs.Levels.{size};
ghost use Rattle.table.specs.Buses.{on_side};
ghost use Rattle.table.specs.Evening.{EvenSides};
ghost use Rattle.table.specs.Updates.{TurnedFrom, Droppable, WayMade, DroppedEven};

use crate::buses::{carries, count_on, first_carrying};
use crate::levels::{descend, loads};
use crate::networks::{Along, Reversed};
use crate::reports::OneNode;
use crate::searches::Search;
use crate::turning::turn_back;
use rules::Rule;
use stores::pairs::{Pair, Side};
use stores::views::{Store, View};

// Turns one chain from a node to a post that is over its limit wherever any post that the node leads to is.
fn turn_from<S: Store, R: Rule>(store: &mut S, rule: &R, node: u16, marks: &mut [u8])
    requires long { size (S.means store.old) ≤ length marks.old }
    requires even { EvenSides (S.means store.old) (R.limits rule.now) }
    requires inside { node < size (S.means store.old) }
    requires leads { node < (S.means store.old).buses → 0 < on_side (S.means store.old) post_side node }
    ensures room { S.room store.new ≡ S.room store.old }
    ensures turned { TurnedFrom (S.means store.old) (S.means store.new) (R.limits rule.now) node }
{
    marks.fill(0);
    let loads = loads(store);
    let net = Reversed(Along(store));
    let mut search = Search::over(&net, marks);
    match descend(&mut search, rule, &loads, &OneNode(node), 0) {
        Some((_, place)) => {
            let queue = search.into_found();
            turn_back(store, &queue, place)
        }
        None => {
            if node < store.buses() {
                let post = first_carrying(store, node);
                let _ = store.turn(Pair { bus: node, post });
            }
        }
    }
}

// Turns a chain from the end that carries the pair, so that the pair may go; none from a bus with no more pairs than its limit.
fn make_way<S: Store, R: Rule>(store: &mut S, rule: &R, pair: Pair, marks: &mut [u8])
    requires long { size (S.means store.old) ≤ length marks.old }
    requires even { EvenSides (S.means store.old) (R.limits rule.now) }
    requires fits { Droppable (S.means store.old) pair.bus pair.post }
    ensures room { S.room store.new ≡ S.room store.old }
    ensures made { WayMade (S.means store.old) (S.means store.new) (R.limits rule.now) pair.bus pair.post }
{
    if carries(store, pair, Side::Post) {
        let node = store.buses() + pair.post;
        turn_from(store, rule, node, marks);
    } else {
        let own = count_on(store, pair.bus, Side::Bus);
        let others = count_on(store, pair.bus, Side::Post);
        if u32::from(own) + u32::from(others) > rule.bus_limit(pair.bus) {
            turn_from(store, rule, pair.bus, marks);
        }
    }
}

// Drops a standing pair from even sides, and turns one chain so that they stay even.
pub(crate) fn drop_even<S: Store, R: Rule>(store: &mut S, rule: &R, pair: Pair, marks: &mut [u8])
    requires long { size (S.means store.old) ≤ length marks.old }
    requires even { EvenSides (S.means store.old) (R.limits rule.now) }
    requires fits { Droppable (S.means store.old) pair.bus pair.post }
    ensures room { S.room store.new ≡ S.room store.old + 1 }
    ensures dropped { DroppedEven (S.means store.old) (S.means store.new) (R.limits rule.now) pair.bus pair.post }
{
    make_way(store, rule, pair, marks);
    let _ = store.drop(pair);
}
