ghost use Rattle.std.specs.Prelude.{◌≡◌, ◌<◌, true};
ghost use Rattle.table.specs.Yards.{joined};
ghost use Rattle.table.specs.Searches.{len, PairTurned, OverPairs, TurnedBack};

use crate::queues::Queue;
use stores::pairs::Pair;
use stores::views::{Store, View};

// Turns the pair of two nodes that are paired.
fn turn_pair<S: Store>(store: &mut S, x: u16, y: u16)
    requires { joined (S.means store.old) x y ≡ true }
    ensures room { S.room store.new ≡ S.room store.old }
    ensures turned { PairTurned (S.means store.old) (S.means store.new) x y }
{
    let buses = store.buses();
    let _ = if x < buses {
        store.turn(Pair {
            bus: x,
            post: y - buses,
        })
    } else {
        store.turn(Pair {
            bus: y,
            post: x - buses,
        })
    };
}

// Turns every pair on the way from a place of the queue back to the start that it was found from.
pub(crate) fn turn_back<S: Store>(store: &mut S, queue: &Queue, place: usize)
    requires over { OverPairs (S.means store.old) queue.now }
    requires found { place < len queue.now }
    ensures room { S.room store.new ≡ S.room store.old }
    ensures turned { TurnedBack queue.now place (S.means store.old) (S.means store.new) }
{
    let found = queue.found.as_slice();
    let mut at = place;
    // The places on the way back are a walk from link to link, no range.
    while found[at].from as usize != at {
        let back = found[at].from as usize;
        turn_pair(store, found[back].node, found[at].node);
        at = back;
    }
}
