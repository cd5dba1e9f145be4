ghost use Rattle.std.specs.Prelude.{◌≡◌, ◌≤◌, length};
ghost use Rattle.table.specs.Searches.{len};
ghost use Rattle.table.specs.Levels.{size};
ghost use Rattle.table.specs.Buses.{BusesRight};
ghost use Rattle.table.specs.Evening.{Uneven, ChainTurned, Settled};

use crate::buses::settle_buses;
use crate::levels::{Under, descend, loads};
use crate::networks::{Against, Along, Reversed};
use crate::searches::Search;
use crate::turning::turn_back;
use rules::Rule;
use stores::views::{Store, View};

// The place of a post under its limit from which the way back leads to one over it, at the highest level that has any.
fn uneven<S: View, R: Rule>(search: &mut Search<'_, Against<'_, S>>, rule: &R) -> Option<usize>
    requires none { (len search.old.queue ≡ 0) × (search.old.queue.next ≡ 0) }
    requires right { BusesRight (S.means search.old.net.now.0.0.now) (R.limits rule.now) }
    ensures { Uneven (S.means search.old.net.now.0.0.now) (R.limits rule.now) search.new.queue result }
{
    let net = search.net;
    let view = net.0.0;
    let loads = loads(view);
    let goal = Under {
        rule,
        loads: &loads,
        buses: view.buses(),
        posts: view.posts(),
    };
    descend(search, rule, &loads, &goal, 0).map(|(_, place)| place)
}

// Here and wherever pairs are turned, the store changes and the rule does not: `&mut S` beside `&R` says so by its type, where a method of
// the table would have to promise it.

// Turns one chain from a post under its limit to one over it, over any working bytes; false where the sides are even.
fn turn_one<S: Store, R: Rule>(store: &mut S, rule: &R, marks: &mut [u8]) -> bool
    requires long { size (S.means store.old) ≤ length marks.old }
    requires right { BusesRight (S.means store.old) (R.limits rule.now) }
    ensures room { S.room store.new ≡ S.room store.old }
    ensures turned { ChainTurned (S.means store.old) (S.means store.new) (R.limits rule.now) result }
{
    marks.fill(0);
    let net = Reversed(Along(store));
    let mut search = Search::over(&net, marks);
    match uneven(&mut search, rule) {
        Some(place) => {
            let queue = search.into_found();
            turn_back(store, &queue, place);
            true
        }
        None => false,
    }
}

// Makes the sides even: first the buses, then one chain after the other. Turns none if they are.
pub(crate) fn settle<S: Store, R: Rule>(store: &mut S, rule: &R, marks: &mut [u8])
    requires { size (S.means store.old) ≤ length marks.old }
    ensures room { S.room store.new ≡ S.room store.old }
    ensures settled { Settled (S.means store.old) (S.means store.new) (R.limits rule.now) }
{
    settle_buses(store, rule);
    while turn_one(store, rule, marks) {}
}
