ghost use Rattle.std.specs.Prelude.{◌≡◌, ◌<◌};
ghost use Rattle.stores.specs.Plans.{Brought, Planned};

use crate::faults::StoreFault;
use crate::pairs::{Pair, Side};
use crate::views::{Store, View};

// Brings a pair from the one standing to the other, by at most one change.
fn bring<S: Store>(
    store: &mut S,
    pair: Pair,
    from: Option<Side>,
    to: Option<Side>,
) -> Result<(), StoreFault>
    requires bus { pair.bus < (S.means store.old).buses }
    requires post { pair.post < (S.means store.old).posts }
    requires stands { (S.means store.old).standing pair.bus pair.post ≡ from }
    ensures { Brought (S.means store.old) (S.means store.new) (S.room store.old) (S.room store.new) pair.bus pair.post to result }
{
    match (from, to) {
        (None, Some(side)) => store.add(pair, side),
        (Some(_), None) => store.drop(pair),
        (Some(from), Some(to)) if from != to => store.turn(pair),
        _ => Ok(()),
    }
}

// Brings one pair to the standing planned for it, by at most one change, and answers the room that is left.
pub fn assign<S: Store>(
    store: &mut S,
    pair: Pair,
    planned: Option<Side>,
) -> Result<usize, StoreFault>
    ensures { Planned (S.means store.old) (S.means store.new) (S.room store.old) (S.room store.new) pair.bus pair.post planned result }
{
    let standing = store.stands(pair)?;
    bring(store, pair, standing, planned)?;
    Ok(store.room())
}
