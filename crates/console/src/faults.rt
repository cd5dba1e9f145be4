ghost use Rattle.std.specs.Prelude.{◌≡◌};
ghost use Rattle.console.specs.declared.faults.LineFault.TheVariants.{Table as by_table};

use table::faults::TableFault;

// Why a line is refused. The numbers are in specs/Faults.
#[derive(Clone, Copy, PartialEq, Eq, Debug)]
pub enum LineFault {
    // 31: longer than 40 bytes, empty, or with another first letter
    Unreadable,
    // 32: wrong fields, or a number above 65,535
    Fields,
    // 33: no table is open yet, or one is open already
    OutOfOrder,
    // 34: a size outside 1 to 256, or a limit above 255
    OutOfRange,
    // 11 to 24
    Table(TableFault),
}

impl From<TableFault> for LineFault {
    ghost from_gives = { λ e r. r ≡ by_table e };

    fn from(e: TableFault) -> LineFault {
        LineFault::Table(e)
    }
}
