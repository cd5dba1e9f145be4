ghost use Rattle.std.specs.Prelude.{◌≡◌, ℕ, ◌+◌, ◌≤◌, Bool};
ghost use Rattle.table.specs.Yards.{leads_of};

use stores::pairs::{Pair, Side};
use stores::views::View;

// Nodes, at most 512, and which of them leads to which.
pub trait Network {
    ghost nodes: { Self → ℕ };

    ghost leads: { Self → ℕ → ℕ → Bool };

    fn nodes(&self) -> u16
        ensures count { result ≡ nodes self.now }
        ensures few { result ≤ 512 };

    fn leads(&self, from: u16, to: u16) -> bool
        ensures { result ≡ leads self.now from to };
}

// What a search looks for: a trait, since a closure's contract names no set that its answers stand for.
pub trait Goal {
    ghost wanted: { Self → ℕ → Bool };

    fn wanted(&self, node: u16) -> bool
        ensures { result ≡ wanted self.now node };
}

// The pairs of a view, each leading to the end that carries it: bus b is node b, post p is node buses + p.
#[derive(Drop)]
pub struct Along<'a, S>(pub &'a S);

// A network with each of its leads turned round.
#[derive(Drop)]
pub struct Reversed<N>(pub N);

// The pairs of a view, each leading away from the end that carries it.
pub type Against<'a, S> = Reversed<Along<'a, S>>;

fn points<S: View>(view: &S, from: u16, to: u16) -> bool
    ensures { result ≡ leads_of (S.means view.now) from to }
{
    let buses = view.buses();
    if from < buses {
        if to < buses {
            return false;
        }
        view.stands(Pair {
            bus: from,
            post: to - buses,
        }) == Ok(Some(Side::Post))
    } else {
        if to >= buses {
            return false;
        }
        view.stands(Pair {
            bus: to,
            post: from - buses,
        }) == Ok(Some(Side::Bus))
    }
}

impl<S: View> Network for Along<'_, S> {
    ghost nodes = { λ a. (S.means a.0.now).buses + (S.means a.0.now).posts };

    ghost leads = { λ a. leads_of (S.means a.0.now) };

    fn nodes(&self) -> u16 {
        self.0.buses() + self.0.posts()
    }

    fn leads(&self, from: u16, to: u16) -> bool {
        points(self.0, from, to)
    }
}

impl<N: Network> Network for Reversed<N> {
    ghost nodes = { λ r. N.nodes r.0 };

    ghost leads = { λ r x y. N.leads r.0 y x };

    fn nodes(&self) -> u16 {
        self.0.nodes()
    }

    fn leads(&self, from: u16, to: u16) -> bool {
        self.0.leads(to, from)
    }
}
