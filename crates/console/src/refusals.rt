ghost use Rattle.std.specs.Prelude.{◌≡◌, ◌≤◌, length};
ghost use Rattle.stores.specs.Faults.{store_fault_number};
ghost use Rattle.table.specs.Faults.{table_fault_number};
ghost use Rattle.console.specs.Faults.{line_number, layer, held, table_fault_layer, table_held};
ghost use Rattle.console.specs.Texts.{spaced};

use crate::faults::LineFault;
use arrayvec::ArrayVec;
use stores::faults::StoreFault;
use table::faults::TableFault;

// The numbers 11 to 34 are what is printed of a fault: an output format, told from the fault enums.
fn store_number(fault: StoreFault) -> u8
    ensures value { result ≡ store_fault_number fault }
    ensures bound { result ≤ 34 }
{
    match fault {
        StoreFault::NoBus(_) => 11,
        StoreFault::NoPost(_) => 12,
        StoreFault::Stands(_) => 13,
        StoreFault::Absent(_) => 14,
        StoreFault::Full(_) => 15,
    }
}

fn table_number(fault: TableFault) -> u8
    ensures value { result ≡ table_fault_number fault }
    ensures bound { result ≤ 34 }
{
    match fault {
        TableFault::Level(_) => 21,
        TableFault::Bytes(_) => 22,
        TableFault::Node(_) => 23,
        TableFault::Output(_) => 24,
        TableFault::Store(fault) => store_number(fault),
    }
}

pub(crate) fn number(fault: LineFault) -> u8
    ensures value { result ≡ line_number fault }
    ensures bound { result ≤ 34 }
{
    match fault {
        LineFault::Unreadable => 31,
        LineFault::Fields => 32,
        LineFault::OutOfOrder => 33,
        LineFault::OutOfRange => 34,
        LineFault::Table(fault) => table_number(fault),
    }
}

fn table_layer(fault: TableFault) -> &'static str
    ensures value { result.now ≡ table_fault_layer fault }
    ensures bound { length result.now ≤ 5 }
{
    match fault {
        TableFault::Store(_) => "store",
        _ => "table",
    }
}

// The word of the layer in which a fault arose.
pub(crate) fn layer(fault: LineFault) -> &'static str
    ensures value { result.now ≡ layer fault }
    ensures bound { length result.now ≤ 5 }
{
    match fault {
        LineFault::Table(fault) => table_layer(fault),
        _ => "line",
    }
}

fn table_holds(fault: TableFault) -> ArrayVec<u64, 2>
    ensures value { result.items ≡ table_held fault }
    ensures room { length (spaced (table_held fault)) ≤ 21 }
{
    let mut numbers = ArrayVec::new();
    match fault {
        TableFault::Level(level) => numbers.push(u64::from(level)),
        TableFault::Bytes(count) => numbers.push(count as u64),
        TableFault::Node(node) => numbers.push(u64::from(node)),
        TableFault::Output(count) => numbers.push(count as u64),
        TableFault::Store(fault) => {
            let pair = fault.pair();
            numbers.push(u64::from(pair.bus));
            numbers.push(u64::from(pair.post));
        }
    }
    numbers
}

// The numbers that a fault holds.
pub(crate) fn holds(fault: LineFault) -> ArrayVec<u64, 2>
    ensures value { result.items ≡ held fault }
    ensures room { length (spaced (held fault)) ≤ 21 }
{
    match fault {
        LineFault::Table(fault) => table_holds(fault),
        _ => ArrayVec::new(),
    }
}
