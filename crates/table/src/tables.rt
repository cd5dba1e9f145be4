ghost use Rattle.std.specs.Prelude.{◌≡◌, length, replicate};
ghost use Rattle.table.specs.declared.calls.Call.TheVariants.{Settle as settling, Add as addition, Drop as removal, Side as asks_side, Rank as asks_rank, Block as asks_block, Member as asks_member, Shortfall as asks_shortfall};
ghost use Rattle.table.specs.declared.calls.Answer.TheVariants.{Done as is_done, Side as the_side, Rank as the_rank, Block as the_block, Member as the_member, Shortfall as the_shortfall};
ghost use Rattle.table.specs.Calls.{Promised};
ghost use Rattle.table.specs.Files.{FilePromised};

use crate::additions::add_even;
use crate::checks::{addable, droppable, enough, take_level};
use crate::drops::drop_even;
use crate::evening::settle;
use crate::faults::TableFault;
use crate::files::{RECORD, count_pairs, write_pairs};
use crate::guards::Cleared;
use crate::reports::{Report, count_marked, first_marked};
use rules::Rule;
use stores::pairs::{Pair, Side};
use stores::views::{Store, View};

// Pairs in a store, limits by a rule. Every call but opening is handed working bytes, at least one for each node, which are zero at
// its end; it is refused before anything turns, or makes the sides even first. What each call promises of the bytes and the rule speaks
// of before and after, which no field of the table could hold.
#[derive(Drop)]
pub struct Table<S, R> {
    store: S,
    rule: R,
}

impl<S: Store, R: Rule> Table<S, R> {
    // Joins a store and a rule, and turns nothing.
    pub fn open(store: S, rule: R) -> Table<S, R>
        ensures { (result.store ≡ store) × (result.rule ≡ rule) }
    {
        Table { store, rule }
    }

    // The store, to look at.
    pub fn store(&self) -> &S
        ensures { result.now ≡ self.now.store }
    {
        &self.store
    }

    // The store and the rule again, as they are.
    pub fn close(self) -> (S, R)
        ensures { (result.0 ≡ self.store) × (result.1 ≡ self.rule) }
    {
        let Table { store, rule } = self;
        (store, rule)
    }

    // Makes the sides even, which turns none if they are.
    pub fn settle(&mut self, bytes: &mut [u8]) -> Result<(), TableFault>
        ensures zero { bytes.new ≡ replicate (length bytes.old) 0 }
        ensures rule { self.new.rule ≡ self.old.rule }
        ensures does { Promised (λ _. is_done) (R.limits self.old.rule) (length bytes.old) settling (S.means self.old.store) (S.means self.new.store) (S.room self.old.store) (S.room self.new.store) result }
    {
        let guard = Cleared::over(bytes);
        enough(&self.store, guard.0.len())?;
        // Even sides are all that is asked for.
        settle(&mut self.store, &self.rule, guard.0);
        Ok(())
    }

    // Adds an absent pair. On even sides exactly the pairs of one chain turn.
    pub fn add(&mut self, pair: Pair, bytes: &mut [u8]) -> Result<(), TableFault>
        ensures zero { bytes.new ≡ replicate (length bytes.old) 0 }
        ensures rule { self.new.rule ≡ self.old.rule }
        ensures does { Promised (λ _. is_done) (R.limits self.old.rule) (length bytes.old) (addition pair) (S.means self.old.store) (S.means self.new.store) (S.room self.old.store) (S.room self.new.store) result }
    {
        let guard = Cleared::over(bytes);
        enough(&self.store, guard.0.len())?;
        addable(&self.store, pair)?;
        settle(&mut self.store, &self.rule, guard.0);
        add_even(&mut self.store, &self.rule, pair, guard.0);
        Ok(())
    }

    // Drops a standing pair. On even sides exactly the pairs of one chain turn.
    pub fn drop(&mut self, pair: Pair, bytes: &mut [u8]) -> Result<(), TableFault>
        ensures zero { bytes.new ≡ replicate (length bytes.old) 0 }
        ensures rule { self.new.rule ≡ self.old.rule }
        ensures does { Promised (λ _. is_done) (R.limits self.old.rule) (length bytes.old) (removal pair) (S.means self.old.store) (S.means self.new.store) (S.room self.old.store) (S.room self.new.store) result }
    {
        let guard = Cleared::over(bytes);
        enough(&self.store, guard.0.len())?;
        droppable(&self.store, pair)?;
        settle(&mut self.store, &self.rule, guard.0);
        drop_even(&mut self.store, &self.rule, pair, guard.0);
        Ok(())
    }

    // How a pair stands, once the sides are even.
    pub fn side(&mut self, pair: Pair, bytes: &mut [u8]) -> Result<Option<Side>, TableFault>
        ensures zero { bytes.new ≡ replicate (length bytes.old) 0 }
        ensures rule { self.new.rule ≡ self.old.rule }
        ensures does { Promised the_side (R.limits self.old.rule) (length bytes.old) (asks_side pair) (S.means self.old.store) (S.means self.new.store) (S.room self.old.store) (S.room self.new.store) result }
    {
        let guard = Cleared::over(bytes);
        enough(&self.store, guard.0.len())?;
        self.store.stands(pair)?;
        settle(&mut self.store, &self.rule, guard.0);
        Ok(self.store.stands(pair)?)
    }

    // The rank of a node, −1 to 255: bus b is node b, post p is node buses + p.
    pub fn rank(&mut self, node: u16, bytes: &mut [u8]) -> Result<i16, TableFault>
        ensures zero { bytes.new ≡ replicate (length bytes.old) 0 }
        ensures rule { self.new.rule ≡ self.old.rule }
        ensures does { Promised the_rank (R.limits self.old.rule) (length bytes.old) (asks_rank node) (S.means self.old.store) (S.means self.new.store) (S.room self.old.store) (S.room self.new.store) result }
    {
        let guard = Cleared::over(bytes);
        let nodes = enough(&self.store, guard.0.len())?;
        if node >= nodes {
            return Err(TableFault::Node(node));
        }
        settle(&mut self.store, &self.rule, guard.0);
        guard.0.fill(0);
        Ok(Report::over(&self.store, &self.rule).rank(node, guard.0))
    }

    // How many buses and posts the block of a level has.
    pub fn block(&mut self, level: u16, bytes: &mut [u8]) -> Result<(u16, u16), TableFault>
        ensures zero { bytes.new ≡ replicate (length bytes.old) 0 }
        ensures rule { self.new.rule ≡ self.old.rule }
        ensures does { Promised (λ v. the_block v.0 v.1) (R.limits self.old.rule) (length bytes.old) (asks_block level) (S.means self.old.store) (S.means self.new.store) (S.room self.old.store) (S.room self.new.store) result }
    {
        let guard = Cleared::over(bytes);
        enough(&self.store, guard.0.len())?;
        take_level(level)?;
        settle(&mut self.store, &self.rule, guard.0);
        guard.0.fill(0);
        Report::over(&self.store, &self.rule).mark_block(level, guard.0);
        let buses = self.store.buses();
        let posts = self.store.posts();
        let marks: &[u8] = guard.0;
        Ok((
            count_marked(marks, 0, buses),
            count_marked(marks, buses, posts),
        ))
    }

    // The first member of the block of a level from a node on, or none; any node number is taken.
    pub fn member(
        &mut self,
        level: u16,
        node: u16,
        bytes: &mut [u8],
    ) -> Result<Option<u16>, TableFault>
        ensures zero { bytes.new ≡ replicate (length bytes.old) 0 }
        ensures rule { self.new.rule ≡ self.old.rule }
        ensures does { Promised the_member (R.limits self.old.rule) (length bytes.old) (asks_member level node) (S.means self.old.store) (S.means self.new.store) (S.room self.old.store) (S.room self.new.store) result }
    {
        let guard = Cleared::over(bytes);
        let nodes = enough(&self.store, guard.0.len())?;
        take_level(level)?;
        settle(&mut self.store, &self.rule, guard.0);
        guard.0.fill(0);
        Report::over(&self.store, &self.rule).mark_block(level, guard.0);
        Ok(first_marked(guard.0, node, nodes))
    }

    // The shortfall of a level: the largest excess of any set.
    pub fn shortfall(&mut self, level: u16, bytes: &mut [u8]) -> Result<u32, TableFault>
        ensures zero { bytes.new ≡ replicate (length bytes.old) 0 }
        ensures rule { self.new.rule ≡ self.old.rule }
        ensures does { Promised the_shortfall (R.limits self.old.rule) (length bytes.old) (asks_shortfall level) (S.means self.old.store) (S.means self.new.store) (S.room self.old.store) (S.room self.new.store) result }
    {
        let guard = Cleared::over(bytes);
        enough(&self.store, guard.0.len())?;
        take_level(level)?;
        settle(&mut self.store, &self.rule, guard.0);
        Ok(Report::over(&self.store, &self.rule).shortfall(level))
    }

    // Writes the pair file: four bytes for each standing pair, ascending by bus, then post; answers how many bytes it is.
    pub fn pair_file(&mut self, out: &mut [u8], bytes: &mut [u8]) -> Result<usize, TableFault>
        ensures zero { bytes.new ≡ replicate (length bytes.old) 0 }
        ensures rule { self.new.rule ≡ self.old.rule }
        ensures does { FilePromised (R.limits self.old.rule) (length bytes.old) (S.means self.old.store) (S.means self.new.store) (S.room self.old.store) (S.room self.new.store) out.old out.new result }
    {
        let guard = Cleared::over(bytes);
        enough(&self.store, guard.0.len())?;
        if out.len() < RECORD * count_pairs(&self.store) {
            return Err(TableFault::Output(out.len()));
        }
        settle(&mut self.store, &self.rule, guard.0);
        Ok(write_pairs(&self.store, out))
    }
}
