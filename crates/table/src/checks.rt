ghost use Rattle.table.specs.declared.calls.Call.TheVariants.{Add as addition, Drop as removal};
ghost use Rattle.table.specs.Calls.{model_of};
ghost use Rattle.table.specs.Checks.{Enough, LevelTaken, Checked};

use crate::faults::TableFault;
use stores::faults::StoreFault;
use stores::pairs::Pair;
use stores::views::{Store, View};

// Levels run from 0 to this.
const LAST_LEVEL: u16 = 255;

// The number of nodes, where the working bytes suffice for them.
pub(crate) fn enough<S: View>(view: &S, bytes: usize) -> Result<u16, TableFault>
    ensures { Enough (S.means view.now) bytes result }
{
    let nodes = view.buses() + view.posts();
    if bytes < nodes as usize {
        return Err(TableFault::Bytes(bytes));
    }
    Ok(nodes)
}

pub(crate) fn take_level(level: u16) -> Result<(), TableFault>
    ensures { LevelTaken level result }
{
    if level > LAST_LEVEL {
        return Err(TableFault::Level(level));
    }
    Ok(())
}

// May the pair be added?
pub(crate) fn addable<S: Store>(store: &S, pair: Pair) -> Result<(), StoreFault>
    ensures { Checked (model_of (S.means store.now) (S.room store.now)) (addition pair) result }
{
    if store.stands(pair)?.is_some() {
        return Err(StoreFault::Stands(pair));
    }
    if store.room() == 0 {
        return Err(StoreFault::Full(pair));
    }
    Ok(())
}

// May the pair be dropped?
pub(crate) fn droppable<S: Store>(store: &S, pair: Pair) -> Result<(), StoreFault>
    ensures { Checked (model_of (S.means store.now) (S.room store.now)) (removal pair) result }
{
    if store.stands(pair)?.is_none() {
        return Err(StoreFault::Absent(pair));
    }
    Ok(())
}
