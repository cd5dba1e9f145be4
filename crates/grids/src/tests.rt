use crate::Grid;
use std::process::Abort;
use stores::faults::StoreFault;
use stores::pairs::{Pair, Side};
use stores::plans::assign;
use stores::swaps::Swap;
use stores::views::{Store, View};

// No buses, no posts, no room: every call is refused for want of a bus, and the bytes stay.
fn is_void(rt: &impl Abort, buses: u16, posts: u16) {
    let mut bytes = [0x9cu8; 3];
    let mut grid = Grid::over(&mut bytes[..], buses, posts);
    assert_eq!(rt; (grid.buses(), grid.posts(), grid.room()), (0, 0, 0));
    let none = Err(StoreFault::NoBus(Pair::new(0, 0)));
    assert_eq!(rt; grid.add(Pair::new(0, 0), Side::Bus), none);
    assert_eq!(rt; grid.drop(Pair::new(0, 0)), none);
    assert_eq!(rt; grid.turn(Pair::new(0, 0)), none);
    assert_eq!(rt; bytes, [0x9c; 3]);
}

#[test]
fn void(rt: HostRuntime) {
    is_void(&rt, 0, 1);
    is_void(&rt, 1, 0);
    is_void(&rt, 257, 1);
    is_void(&rt, 1, 257);
    // one byte too few
    is_void(&rt, 2, 5);
}

// The low bit of an absent pair is garbage, as are the bits beyond the one cell.
#[test]
fn one_cell(rt: HostRuntime) {
    let mut grid = Grid::over([0x7fu8], 1, 1);
    assert_eq!(rt; grid.room(), 1);
    assert_eq!(rt; grid.stands(Pair::new(0, 0)), Ok(None));
    assert_eq!(rt; grid.add(Pair::new(0, 0), Side::Bus), Ok(()));
    assert_eq!(rt;
        grid.add(Pair::new(0, 0), Side::Bus),
        Err(StoreFault::Stands(Pair::new(0, 0)))
    );
    assert_eq!(rt; grid.room(), 0);
    assert_eq!(rt; grid.turn(Pair::new(0, 0)), Ok(()));
    assert_eq!(rt; grid.stands(Pair::new(0, 0)), Ok(Some(Side::Post)));
    assert_eq!(rt; grid.drop(Pair::new(0, 0)), Ok(()));
    assert_eq!(rt;
        grid.drop(Pair::new(0, 0)),
        Err(StoreFault::Absent(Pair::new(0, 0)))
    );
    let bytes = grid.into_memory();
    assert_eq!(rt; bytes, [0x3f]);
}

// Five posts to a row of two bytes, with garbage in the spare bits and beyond the rows.
#[test]
fn spare_bits(rt: HostRuntime) {
    let mut bytes = [0x00, 0x3f, 0x05, 0x2a, 0xff];
    let mut grid = Grid::over(&mut bytes[..], 2, 5);
    assert_eq!(rt; grid.room(), 10);
    assert_eq!(rt; grid.add(Pair::new(1, 4), Side::Post), Ok(()));
    assert_eq!(rt; grid.add(Pair::new(0, 1), Side::Bus), Ok(()));
    assert_eq!(rt;
        grid.stands(Pair::new(1, 5)),
        Err(StoreFault::NoPost(Pair::new(1, 5)))
    );
    assert_eq!(rt; grid.room(), 8);
    assert_eq!(rt; bytes, [0x20, 0x3f, 0x05, 0xea, 0xff]);
}

#[test]
fn largest(rt: HostRuntime) {
    let mut grid = Grid::over([0u8; 16384], 256, 256);
    assert_eq!(rt; grid.room(), 65536);
    assert_eq!(rt; grid.add(Pair::new(255, 255), Side::Post), Ok(()));
    assert_eq!(rt; grid.room(), 65535);
    let bytes = grid.into_memory();
    assert_eq!(rt; bytes[16383], 3);
}

// A swap names its own bus first, and its own numbers.
#[test]
fn other_way_round(rt: HostRuntime) {
    let mut swap = Swap::over(Grid::over([0u8; 2], 2, 3));
    assert_eq!(rt; (swap.buses(), swap.posts()), (3, 2));
    assert_eq!(rt;
        swap.stands(Pair::new(3, 2)),
        Err(StoreFault::NoBus(Pair::new(3, 2)))
    );
    assert_eq!(rt;
        swap.drop(Pair::new(2, 2)),
        Err(StoreFault::NoPost(Pair::new(2, 2)))
    );
    assert_eq!(rt;
        swap.turn(Pair::new(2, 1)),
        Err(StoreFault::Absent(Pair::new(2, 1)))
    );
    assert_eq!(rt; assign(&mut swap, Pair::new(2, 1), Some(Side::Bus)), Ok(5));
    assert_eq!(rt; assign(&mut swap, Pair::new(2, 1), Some(Side::Bus)), Ok(5));
    assert_eq!(rt;
        swap.into_inner().stands(Pair::new(1, 2)),
        Ok(Some(Side::Post))
    );
}
