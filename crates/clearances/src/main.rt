#![tactic(auto)]

ghost use Rattle.std.specs.Prelude.{◌≡◌};

use grids::Grid;
use rolls::Roll;
use std::io;
use stores::faults::StoreFault;
use stores::pairs::{Pair, Side};
use stores::plans::assign;
use stores::swaps::Swap;
use stores::views::{Store, View};

// What the planner asks for one bus at one post: an enum and no closure, since an order is also read out.
#[derive(Clone, Copy)]
enum Order {
    Clear(Side),
    Withdraw,
    HandOver,
    Plan(Option<Side>),
}

#[derive(Clone, Copy)]
struct Step {
    order: Order,
    pair: Pair,
}

impl Step {
    fn new(order: Order, bus: u16, post: u16) -> Step
        ensures { result ≡ record { order = order; pair = record { bus = bus; post = post } } }
    {
        Step {
            order,
            pair: Pair { bus, post },
        }
    }
}

// The morning's orders, the mistaken ones among them.
fn morning() -> [Step; 10] {
    [
        Step::new(Order::Clear(Side::Bus), 0, 0),
        Step::new(Order::Clear(Side::Post), 0, 1),
        Step::new(Order::Clear(Side::Post), 0, 0),
        Step::new(Order::HandOver, 0, 1),
        Step::new(Order::Plan(Some(Side::Post)), 1, 0),
        Step::new(Order::Plan(Some(Side::Post)), 1, 0),
        Step::new(Order::Withdraw, 0, 0),
        Step::new(Order::HandOver, 0, 0),
        Step::new(Order::Clear(Side::Bus), 1, 7),
        Step::new(Order::Clear(Side::Bus), 9, 7),
    ]
}

fn carry_out<S: Store>(store: &mut S, step: Step) -> Result<usize, StoreFault> {
    match step.order {
        Order::Clear(side) => store.add(step.pair, side)?,
        Order::Withdraw => store.drop(step.pair)?,
        Order::HandOver => store.turn(step.pair)?,
        Order::Plan(standing) => return assign(store, step.pair, standing),
    }
    Ok(store.room())
}

fn wording(order: Order) -> &'static str {
    match order {
        Order::Clear(Side::Bus) => "is to be cleared, and the bus carries it",
        Order::Clear(Side::Post) => "is to be cleared, and the post carries it",
        Order::Withdraw => "is to be withdrawn",
        Order::HandOver => "is to be carried by its other end",
        Order::Plan(None) => "is planned as not cleared",
        Order::Plan(Some(Side::Bus)) => "is planned as cleared, and the bus carries it",
        Order::Plan(Some(Side::Post)) => "is planned as cleared, and the post carries it",
    }
}

fn reason(fault: StoreFault) -> &'static str {
    match fault {
        StoreFault::NoBus(_) => "there is no such bus",
        StoreFault::NoPost(_) => "there is no such post",
        StoreFault::Stands(_) => "the pair is cleared already",
        StoreFault::Absent(_) => "the pair is not cleared",
        StoreFault::Full(_) => "there is no room left",
    }
}

// Carries out the morning in one store, and says what came of each order.
fn keep<S: Store>(rt: &HostRuntime, name: &str, store: &mut S) -> io::Result<()> {
    let buses = store.buses();
    let posts = store.posts();
    let room = store.room();
    println!(rt; "{name}. Buses: {buses}; posts: {posts}; room: {room}.")?;
    for step in morning() {
        let Pair { bus, post } = step.pair;
        let order = wording(step.order);
        match carry_out(store, step) {
            Ok(room) => println!(rt; "  Bus {bus} at post {post} {order}: done; room: {room}.")?,
            Err(fault) => {
                let reason = reason(fault);
                println!(rt; "  Bus {bus} at post {post} {order}: refused, since {reason}.")?;
            }
        }
    }
    Ok(())
}

fn main(rt: HostRuntime) -> io::Result<()> {
    let mut bytes = [0u8; 2];
    keep(
        &rt,
        "A grid over lent bytes",
        &mut Grid::over(&mut bytes[..], 2, 2),
    )?;
    println!(rt; "  Its bytes are now {bytes:?}.")?;
    keep(
        &rt,
        "A grid the other way round",
        &mut Swap::over(Grid::over([0u8; 3], 3, 2)),
    )?;
    keep(&rt, "A grid with one cell", &mut Grid::over([0u8; 1], 1, 1))?;
    keep(&rt, "A roll with two places", &mut Roll::new(2, 2, 2))?;
    keep(&rt, "A roll for no bus", &mut Roll::new(0, 2, 2))?;
    keep(
        &rt,
        "A grid over too few bytes",
        &mut Grid::over([0u8; 1], 2, 2),
    )
}
