ghost use Rattle.std.specs.Prelude.{◌≡◌};
ghost use Rattle.table.specs.declared.faults.TableFault.TheVariants.{Store as by_store};

use stores::faults::StoreFault;

// Why the table refuses a call: it holds the number refused, or the store's own fault. The numbers are in specs/Faults.
#[derive(Clone, Copy, PartialEq, Eq, Debug)]
pub enum TableFault {
    // 21: a level above 255
    Level(u16),
    // 22: too few working bytes; holds how many were handed in
    Bytes(usize),
    // 23: no such node
    Node(u16),
    // 24: an output too short for the pair file; holds how many bytes were handed in
    Output(usize),
    // 11 to 15
    Store(StoreFault),
}

impl From<StoreFault> for TableFault {
    ghost from_gives = { λ e r. r ≡ by_store e };

    fn from(e: StoreFault) -> TableFault {
        TableFault::Store(e)
    }
}
