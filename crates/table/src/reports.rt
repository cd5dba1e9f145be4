ghost use Rattle.std.specs.Prelude.{◌≡◌, ◌+◌, ◌-◌, ◌<◌, ◌≤◌, false, length, replicate, ◌==◌};
ghost use Rattle.blocks.specs.Blocks.{shortfall_at};
ghost use Rattle.blocks.specs.Ranks.{rank as rank_of};
ghost use Rattle.table.specs.Yards.{yard_of};
ghost use Rattle.table.specs.Searches.{marked};
ghost use Rattle.table.specs.Levels.{size};
ghost use Rattle.table.specs.Evening.{EvenSides};
ghost use Rattle.table.specs.Reports.{BlockMarked, count_from, FirstMember};

use crate::levels::{LevelGoal, descend, loads};
use crate::networks::{Along, Goal, Reversed};
use crate::searches::Search;
use rules::Rule;
use stores::views::View;

// A view whose sides are even under a rule: what a table reports from.
#[derive(Drop)]
pub(crate) struct Report<'a, S: View, R: Rule> {
    view: &'a S,
    rule: &'a R,
    ghost even: { EvenSides (S.means view.now) (R.limits rule.now) },
}

impl<'a, S: View, R: Rule> Report<'a, S, R> {
    pub(crate) fn over(view: &'a S, rule: &'a R) -> Report<'a, S, R>
        requires { EvenSides (S.means view.now) (R.limits rule.now) }
        ensures { (result.view.now ≡ view.now) × (result.rule.now ≡ rule.now) }
    {
        Report { view, rule }
    }

    // What the posts carry beyond their limits at a level.
    pub(crate) fn shortfall(&self, level: u16) -> u32
        requires { level ≤ 255 }
        ensures { result ≡ shortfall_at (yard_of (S.means self.now.view.now)) (R.limits self.now.rule.now) level }
    {
        let loads = loads(self.view);
        // `sum` requires a bound on what it adds, which only the loop's invariant gives.
        let mut total: u32 = 0;
        for post in 0..self.view.posts() {
            total += u32::from(loads[post as usize]).saturating_sub(
                self.rule.post_limit(post, level),
            );
        }
        total
    }

    // Marks the block of a level, over cleared bytes.
    pub(crate) fn mark_block(&self, level: u16, marks: &mut [u8])
        requires zero { marks.old ≡ replicate (length marks.old) 0 }
        requires long { size (S.means self.now.view.now) ≤ length marks.old }
        requires level { level ≤ 255 }
        ensures { BlockMarked (S.means self.now.view.now) (R.limits self.now.rule.now) level marks.new }
    {
        let loads = loads(self.view);
        let net = Reversed(Along(self.view));
        let mut search = Search::over(&net, marks);
        let _ = descend(&mut search, self.rule, &loads, &NoNode, level);
    }

    // The rank of a node, over cleared bytes: the highest level at which it leads to a post over its limit.
    pub(crate) fn rank(&self, node: u16, marks: &mut [u8]) -> i16
        requires zero { marks.old ≡ replicate (length marks.old) 0 }
        requires long { size (S.means self.now.view.now) ≤ length marks.old }
        requires node { node < size (S.means self.now.view.now) }
        ensures { result ≡ rank_of (yard_of (S.means self.now.view.now)) (R.limits self.now.rule.now) node }
    {
        let loads = loads(self.view);
        let net = Reversed(Along(self.view));
        let mut search = Search::over(&net, marks);
        // In a closure the cast would have to ask for its bound.
        match descend(&mut search, self.rule, &loads, &OneNode(node), 0) {
            Some((level, _)) => level as i16,
            None => -1,
        }
    }
}

// Looks for no node.
#[derive(Drop)]
pub(crate) struct NoNode;

impl Goal for NoNode {
    ghost wanted = { λ _ _. false };

    fn wanted(&self, _node: u16) -> bool {
        false
    }
}

impl LevelGoal for NoNode {
    ghost sought = { λ _ _ _. false };

    fn sought(&self, _level: u16, _node: u16) -> bool {
        false
    }
}

// Looks for one node.
#[derive(Drop)]
pub(crate) struct OneNode(pub(crate) u16);

impl LevelGoal for OneNode {
    ghost sought = { λ one _ n. n == one.0 };

    fn sought(&self, _level: u16, node: u16) -> bool {
        node == self.0
    }
}

// How many of so many marks from a place on are set.
pub(crate) fn count_marked(marks: &[u8], start: u16, count: u16) -> u16
    requires { start + count ≤ length marks.now }
    ensures { result ≡ count_from (marked marks.now) start count }
{
    let start = start as usize;
    marks[start..start + count as usize]
        .iter()
        .filter(|mark| **mark > 0)
        .count() as u16
}

// The first mark that is set from a place on.
pub(crate) fn first_marked(marks: &[u8], start: u16, nodes: u16) -> Option<u16>
    requires { nodes ≤ length marks.now }
    ensures { FirstMember (marked marks.now) start nodes result }
{
    (start..nodes).find(|node| marks[*node as usize] > 0)
}
