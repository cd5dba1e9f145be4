ghost use Rattle.std.specs.Prelude.{◌≡◌, ◌+◌, ◌<◌, ◌≤◌, length};
ghost use Rattle.table.specs.Searches.{len};
ghost use Rattle.table.specs.Levels.{size, Upward};
ghost use Rattle.stores.specs.declared.pairs.Side.TheVariants.{Bus as bus_side};
ghost use Rattle.table.specs.Buses.{on_side};
ghost use Rattle.table.specs.Evening.{EvenSides};
ghost use Rattle.table.specs.Updates.{AllLeading, Chosen, Addable, AddedEven};

use crate::buses::count_on;
use crate::levels::{LevelGoal, Under, loads};
use crate::networks::{Along, Reversed};
use crate::queues::Queue;
use crate::reports::NoNode;
use crate::searches::Search;
use crate::turning::turn_back;
use rules::Rule;
use stores::pairs::{Pair, Side};
use stores::views::{Store, View};

// The place of a node that is sought at the lowest level at which any found is; the first place if none is.
fn lowest<G: LevelGoal>(goal: &G, queue: &Queue) -> usize
    requires some { 0 < len queue.now }
    requires up { Upward (G.sought goal.now) }
    ensures { Chosen (G.sought goal.now) queue.now result }
{
    for level in 0..256 {
        if let Some(place) = queue
            .found
            .iter()
            .position(|found| goal.sought(level, found.node))
        {
            return place;
        }
    }
    0
}

// All that leads to a node, over any working bytes.
fn leading<S: View>(view: &S, node: u16, marks: &mut [u8]) -> Queue
    requires long { size (S.means view.now) ≤ length marks.old }
    requires inside { node < size (S.means view.now) }
    ensures { AllLeading (S.means view.now) node result }
{
    marks.fill(0);
    let net = Reversed(Along(view));
    let mut search = Search::over(&net, marks);
    search.start(node);
    let _ = search.run(&NoNode);
    search.into_found()
}

// Adds an absent pair of a bus at its limit: its post carries it, and of the posts that lead there the lowest takes over one pair.
fn add_to_post<S: Store, R: Rule>(store: &mut S, rule: &R, pair: Pair, marks: &mut [u8])
    requires long { size (S.means store.old) ≤ length marks.old }
    requires fits { Addable (S.means store.old) (S.room store.old) pair.bus pair.post }
    requires even { EvenSides (S.means store.old) (R.limits rule.now) }
    requires full { (R.limits rule.now).bus pair.bus ≤ on_side (S.means store.old) bus_side pair.bus }
    ensures room { S.room store.new + 1 ≡ S.room store.old }
    ensures added { AddedEven (S.means store.old) (S.means store.new) (R.limits rule.now) pair.bus pair.post }
{
    let loads = loads(store);
    let buses = store.buses();
    let posts = store.posts();
    let _ = store.add(pair, Side::Post);
    let queue = leading(store, buses + pair.post, marks);
    let goal = Under {
        rule,
        loads: &loads,
        buses,
        posts,
    };
    let place = lowest(&goal, &queue);
    turn_back(store, &queue, place);
}

// Adds an absent pair to even sides, and turns one chain so that they stay even.
pub(crate) fn add_even<S: Store, R: Rule>(store: &mut S, rule: &R, pair: Pair, marks: &mut [u8])
    requires long { size (S.means store.old) ≤ length marks.old }
    requires fits { Addable (S.means store.old) (S.room store.old) pair.bus pair.post }
    requires even { EvenSides (S.means store.old) (R.limits rule.now) }
    ensures room { S.room store.new + 1 ≡ S.room store.old }
    ensures added { AddedEven (S.means store.old) (S.means store.new) (R.limits rule.now) pair.bus pair.post }
{
    let carried = count_on(store, pair.bus, Side::Bus);
    if u32::from(carried) < rule.bus_limit(pair.bus) {
        let _ = store.add(pair, Side::Bus);
    } else {
        add_to_post(store, rule, pair, marks);
    }
}
