ghost use Rattle.std.specs.Prelude.{◌≡◌, ◌<◌, ◌≤◌, ◌⊎◌, true, false, length, replicate, MatchOption, slice_set};
ghost use Rattle.table.specs.Searches.{len, node, marked, Searched, Pushed, Started, Followed, Sought, AllNodes, FirstStray, AllStarted, Reached};

use crate::faults::TableFault;
use crate::guards::Cleared;
use crate::networks::{Goal, Network};
use crate::queues::{Found, Queue};

// A search under way: what it has found, and the bytes that mark it.
#[derive(Drop)]
pub(crate) struct Search<'a, N: Network> {
    pub(crate) net: &'a N,
    pub(crate) queue: Queue,
    pub(crate) marks: &'a mut [u8],
    ghost searched: { ∥ Searched (N.leads net.now) (N.nodes net.now) queue marks.now ∥₁ },
}

impl<'a, N: Network> Search<'a, N> {
    // Nothing found yet, over cleared bytes.
    pub(crate) fn over(net: &'a N, marks: &'a mut [u8]) -> Search<'a, N>
        requires zero { marks.old ≡ replicate (length marks.old) 0 }
        requires long { N.nodes net.now ≤ length marks.old }
        requires few { N.nodes net.now ≤ 512 }
        ensures none { (len result.queue ≡ 0) × (result.queue.next ≡ 0) }
        ensures over { (result.net.now ≡ net.now) × (result.marks.ghost_name ≡ marks.entry.ghost_name) }
        ensures bytes { length result.marks.now ≡ length marks.old }
    {
        Search {
            net,
            queue: Queue::new(),
            marks,
        }
    }

    // Marks a node that is not marked yet, and puts it behind the others.
    fn push(&mut self, to: u16, place: u16)
        requires inside { to < N.nodes self.old.net.now }
        requires fresh { marked self.old.marks.now to ≡ false }
        requires led { (place ≡ len self.old.queue) ⊎ ((place < len self.old.queue) × (N.leads self.old.net.now (node self.old.queue place) to ≡ true)) }
        ensures over { (self.new.net.now ≡ self.old.net.now) × (self.new.marks.ghost_name ≡ self.old.marks.ghost_name) }
        ensures marks { self.new.marks.now ≡ slice_set self.old.marks.now to 1 }
        ensures queue { Pushed self.old.queue self.new.queue to place }
    {
        self.marks[to as usize] = 1;
        self.queue.found.push(Found {
            node: to,
            from: place,
        });
    }

    // Makes a node a start, unless it is marked already.
    pub(crate) fn start(&mut self, first: u16)
        requires { first < N.nodes self.old.net.now }
        ensures over { (self.new.net.now ≡ self.old.net.now) × (self.new.marks.ghost_name ≡ self.old.marks.ghost_name) }
        ensures started { Started (N.leads self.old.net.now) (N.nodes self.old.net.now) self.old.queue self.new.queue self.old.marks.now self.new.marks.now first }
    {
        if self.marks[first as usize] == 0 {
            let place = self.queue.found.len() as u16;
            self.push(first, place);
        }
    }

    // Follows the leads of the next node, and stops at once at a node that is looked for.
    fn follow<G: Goal>(&mut self, goal: &G) -> Option<usize>
        requires { self.old.queue.next < len self.old.queue }
        ensures over { (self.new.net.now ≡ self.old.net.now) × (self.new.marks.ghost_name ≡ self.old.marks.ghost_name) }
        ensures followed { Followed (N.leads self.old.net.now) (N.nodes self.old.net.now) (G.wanted goal.now) self.old.queue self.new.queue self.new.marks.now result }
    {
        let place = self.queue.next;
        let from = self.queue.found[place].node;
        for to in 0..self.net.nodes() {
            if self.marks[to as usize] == 0 && self.net.leads(from, to) {
                self.push(to, place as u16);
                if goal.wanted(to) {
                    return Some(self.queue.found.len() - 1);
                }
            }
        }
        self.queue.next = place + 1;
        None
    }

    // Follows leads until a node that is looked for is found, or all that was found has been followed. The leads from each node are
    // asked once, so each ordered pair of nodes at most once.
    pub(crate) fn run<G: Goal>(&mut self, goal: &G) -> Option<usize>
        ensures over { (self.new.net.now ≡ self.old.net.now) × (self.new.marks.ghost_name ≡ self.old.marks.ghost_name) }
        ensures sought { Sought (N.leads self.old.net.now) (N.nodes self.old.net.now) (G.wanted goal.now) self.old.queue self.new.queue self.new.marks.now result }
    {
        // No iterator goes over a list that grows on the way.
        while self.queue.next < self.queue.found.len() {
            if let Some(place) = self.follow(goal) {
                return Some(place);
            }
        }
        None
    }

    // What has been found; the bytes stay as they are.
    pub(crate) fn into_found(self) -> Queue
        ensures { result ≡ self.entry.queue }
    {
        let Search { queue, .. } = self;
        queue
    }

    // Makes each of some nodes a start, and stops at once at one that is looked for.
    fn start_all<G: Goal>(&mut self, goal: &G, starts: &[u16]) -> Option<u16>
        requires none { (len self.old.queue ≡ 0) × (self.old.queue.next ≡ 0) }
        requires inside { AllNodes (N.nodes self.old.net.now) starts.now }
        ensures over { (self.new.net.now ≡ self.old.net.now) × (self.new.marks.ghost_name ≡ self.old.marks.ghost_name) }
        ensures started { AllStarted (N.leads self.old.net.now) (N.nodes self.old.net.now) (G.wanted goal.now) starts.now self.new.queue self.new.marks.now result }
    {
        for first in starts {
            self.start(*first);
            if goal.wanted(*first) {
                return Some(*first);
            }
        }
        None
    }
}

// The first start that is no node.
fn stray(nodes: u16, starts: &[u16]) -> Option<u16>
    ensures { MatchOption result (AllNodes nodes starts.now) (λ s. FirstStray nodes starts.now s) }
{
    starts.iter().copied().find(|start| *start >= nodes)
}

// A node that is looked for and is reached from one of the starts, or none: over cleared bytes, which it marks.
fn look<N: Network, G: Goal>(
    net: &N,
    goal: &G,
    starts: &[u16],
    marks: &mut [u8],
) -> Result<Option<u16>, TableFault>
    requires { marks.old ≡ replicate (length marks.old) 0 }
    ensures { Reached (N.leads net.now) (N.nodes net.now) (G.wanted goal.now) starts.now (length marks.old) result }
{
    let nodes = net.nodes();
    if marks.len() < nodes as usize {
        return Err(TableFault::Bytes(marks.len()));
    }
    if let Some(start) = stray(nodes, starts) {
        return Err(TableFault::Node(start));
    }
    let mut search = Search::over(net, marks);
    if let Some(node) = search.start_all(goal, starts) {
        return Ok(Some(node));
    }
    let Some(place) = search.run(goal) else {
        return Ok(None);
    };
    Ok(Some(search.queue.found[place].node))
}

// A node that is looked for and that a chain leads to from one of the starts, or none. The working bytes, at least as many as there
// are nodes, are zero at the end.
pub fn reach<N: Network, G: Goal>(
    net: &N,
    goal: &G,
    starts: &[u16],
    bytes: &mut [u8],
) -> Result<Option<u16>, TableFault>
    ensures zero { bytes.new ≡ replicate (length bytes.old) 0 }
    ensures does { Reached (N.leads net.now) (N.nodes net.now) (G.wanted goal.now) starts.now (length bytes.old) result }
{
    let guard = Cleared::over(bytes);
    look(net, goal, starts, guard.0)
}
