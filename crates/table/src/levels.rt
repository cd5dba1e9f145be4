ghost use Rattle.std.specs.Prelude.{◌≡◌, ℕ, ◌<◌, ◌≤◌, Bool};
ghost use Rattle.blocks.specs.Sides.{post_load};
ghost use Rattle.table.specs.Yards.{yard_of, sides_of};
ghost use Rattle.table.specs.Searches.{len};
ghost use Rattle.table.specs.Levels.{BusesWithin, Upward, LoadsOf, OverStarted, Descended, under};

use crate::buses::carries;
use crate::networks::{Against, Goal};
use crate::searches::Search;
use rules::Rule;
use stores::pairs::{Pair, Side};
use stores::views::View;

// What a post carries.
fn load_of<S: View>(view: &S, post: u16) -> u16
    requires { post < (S.means view.now).posts }
    ensures { result ≡ post_load (yard_of (S.means view.now)) (sides_of (S.means view.now)) post }
{
    (0..view.buses())
        .map(|bus| u16::from(carries(view, Pair { bus, post }, Side::Post)))
        .sum()
}

// What each post carries.
pub(crate) fn loads<S: View>(view: &S) -> [u16; 256]
    ensures { LoadsOf (S.means view.now) result }
{
    // By the posts' own numbers, which the view is asked by.
    let mut loads = [0; 256];
    for post in 0..view.posts() {
        loads[post as usize] = load_of(view, post);
    }
    loads
}

// What is looked for at each level.
pub(crate) trait LevelGoal {
    ghost sought: { Self → ℕ → ℕ → Bool };

    fn sought(&self, level: u16, node: u16) -> bool
        ensures { result ≡ sought self.now level node };
}

// The same at one level.
#[derive(Drop)]
pub(crate) struct AtLevel<'a, G> {
    goal: &'a G,
    level: u16,
}

impl<G: LevelGoal> Goal for AtLevel<'_, G> {
    ghost wanted = { λ a. G.sought a.goal.now a.level };

    fn wanted(&self, node: u16) -> bool {
        self.goal.sought(self.level, node)
    }
}

// Makes every post over its limit at a level a start, and stops at once at one that is looked for.
fn start_over<S: View, R: Rule, G: Goal>(
    search: &mut Search<'_, Against<'_, S>>,
    rule: &R,
    loads: &[u16; 256],
    goal: &G,
    level: u16,
) -> Option<usize>
    requires { LoadsOf (S.means search.old.net.now.0.0.now) loads.now }
    ensures over { (search.new.net.now ≡ search.old.net.now) × (search.new.marks.ghost_name ≡ search.old.marks.ghost_name) }
    ensures started { OverStarted (S.means search.old.net.now.0.0.now) (R.limits rule.now) level (G.wanted goal.now) search.old.queue search.new.queue search.new.marks.now result }
{
    let net = search.net;
    let view = net.0.0;
    let buses = view.buses();
    // A post's number is its place among the loads and the marks, and the rule is asked by it.
    for post in 0..view.posts() {
        if u32::from(loads[post as usize]) > rule.post_limit(post, level)
            && search.marks[(buses + post) as usize] == 0
        {
            search.start(buses + post);
            if goal.wanted(buses + post) {
                return Some(search.queue.found.len() - 1);
            }
        }
    }
    None
}

// Goes down from level 255 to `low`, and stops at once where a node that is sought leads to a post over its limit: the level, and the
// node's place in the queue. One search serves all levels, since the posts over their limit only grow.
pub(crate) fn descend<S: View, R: Rule, G: LevelGoal>(
    search: &mut Search<'_, Against<'_, S>>,
    rule: &R,
    loads: &[u16; 256],
    goal: &G,
    low: u16,
) -> Option<(u16, usize)>
    requires none { (len search.old.queue ≡ 0) × (search.old.queue.next ≡ 0) }
    requires loads { LoadsOf (S.means search.old.net.now.0.0.now) loads.now }
    requires buses { BusesWithin (S.means search.old.net.now.0.0.now) (R.limits rule.now) }
    requires up { Upward (G.sought goal.now) }
    requires low { low ≤ 256 }
    ensures over { (search.new.net.now ≡ search.old.net.now) × (search.new.marks.ghost_name ≡ search.old.marks.ghost_name) }
    ensures descended { Descended (S.means search.old.net.now.0.0.now) (R.limits rule.now) (G.sought goal.now) low search.new.queue search.new.marks.now result }
{
    // Left from inside by the label, as soon as a chain is found.
    'found: {
        for level in (low..256).rev() {
            let wanted = AtLevel { goal, level };
            if let Some(place) = start_over(search, rule, loads, &wanted, level) {
                break 'found Some((level, place));
            }
            if let Some(place) = search.run(&wanted) {
                break 'found Some((level, place));
            }
        }
        None
    }
}

// The posts under their limit, by what the posts carry.
#[derive(Drop)]
pub(crate) struct Under<'a, R> {
    pub(crate) rule: &'a R,
    pub(crate) loads: &'a [u16; 256],
    pub(crate) buses: u16,
    pub(crate) posts: u16,
}

impl<R: Rule> LevelGoal for Under<'_, R> {
    ghost sought = { λ u. under u.loads.now (R.limits u.rule.now) u.buses u.posts };

    fn sought(&self, level: u16, node: u16) -> bool {
        if node < self.buses {
            return false;
        }
        let post = node - self.buses;
        post < self.posts
            && post < 256
            && u32::from(self.loads[post as usize]) < self.rule.post_limit(post, level)
    }
}
