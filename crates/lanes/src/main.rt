// Which bays of a depot's one-way lane can still be driven to: the search on a network that is no yard.
#![tactic(auto)]

ghost use Rattle.std.specs.Prelude.{◌+◌, not, ◌&&◌, ◌==◌, nat_lt};

use std::io;
use table::networks::{Goal, Network};
use table::searches::reach;

// Bays in a row, each leading to the next; a closed bay cannot be entered.
#[derive(Drop)]
struct Lane {
    closed: u16,
}

impl Network for Lane {
    ghost nodes = { λ _. 12 };

    ghost leads = { λ lane x y. (y == x + 1) && not (y == lane.closed) };

    fn nodes(&self) -> u16 {
        12
    }

    fn leads(&self, from: u16, to: u16) -> bool {
        to > 0 && to - 1 == from && to != self.closed
    }
}

// The bays from one number on.
#[derive(Drop)]
struct From(u16);

impl Goal for From {
    ghost wanted = { λ goal n. not (nat_lt n goal.0) };

    fn wanted(&self, node: u16) -> bool {
        node >= self.0
    }
}

fn tell(rt: &HostRuntime, closed: u16, first: u16, gates: &[u16]) -> io::Result<()> {
    let mut bytes = [7u8; 16];
    match reach(&Lane { closed }, &From(first), gates, &mut bytes) {
        Ok(Some(bay)) => println!(rt; "bay {closed} closed: bay {bay} is reached"),
        Ok(None) => println!(rt; "bay {closed} closed: no bay from {first} on is reached"),
        Err(_) => println!(rt; "bay {closed} closed: no such gate"),
    }
}

fn main(rt: HostRuntime) -> io::Result<()> {
    tell(&rt, 5, 4, &[0])?;
    tell(&rt, 5, 8, &[0])?;
    tell(&rt, 5, 8, &[0, 6])?;
    tell(&rt, 5, 8, &[0, 12])
}
