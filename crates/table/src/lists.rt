ghost use Rattle.std.specs.Prelude.{◌≡◌, length};
ghost use Rattle.table.specs.Calls.{Promised};
ghost use Rattle.table.specs.Lists.{held, ListMade};

use crate::calls::{Answer, Call, Entry};
use crate::faults::TableFault;
use crate::tables::Table;
use rules::Rule;
use stores::views::{Store, View};

// A yard has at most so many nodes, so no call looks at more working bytes.
const MOST_NODES: usize = 512;

// Makes one call. A list of calls is data that its owner writes and compares, so a call is an enum and no closure.
fn make<S: Store, R: Rule>(
    table: &mut Table<S, R>,
    call: Call,
    bytes: &mut [u8],
) -> Result<Answer, TableFault>
    ensures rule { table.new.rule ≡ table.old.rule }
    ensures does { Promised (λ a. a) (R.limits table.old.rule) (length bytes.old) call (S.means table.old.store) (S.means table.new.store) (S.room table.old.store) (S.room table.new.store) result }
{
    match call {
        Call::Settle => table.settle(bytes).map(|()| Answer::Done),
        Call::Add(pair) => table.add(pair, bytes).map(|()| Answer::Done),
        Call::Drop(pair) => table.drop(pair, bytes).map(|()| Answer::Done),
        Call::Side(pair) => table.side(pair, bytes).map(Answer::Side),
        Call::Rank { node } => table.rank(node, bytes).map(Answer::Rank),
        Call::Block { level } => table
            .block(level, bytes)
            .map(|(buses, posts)| Answer::Block { buses, posts }),
        Call::Member { level, node } => table.member(level, node, bytes).map(Answer::Member),
        Call::Shortfall { level } => table.shortfall(level, bytes).map(Answer::Shortfall),
    }
}

impl<S: Store, R: Rule> Table<S, R> {
    // Makes the sides even, then the calls of a list in order, each over its number of working bytes, and writes each answer beside
    // its call.
    pub fn run(&mut self, entries: &mut [Entry])
        ensures rule { self.new.rule ≡ self.old.rule }
        ensures made { ListMade (R.limits self.old.rule) (held (S.means self.old.store) (S.room self.old.store)) (held (S.means self.new.store) (S.room self.new.store)) entries.old entries.new }
    {
        let mut bytes = [0; MOST_NODES];
        let _ = self.settle(&mut bytes);
        for entry in entries {
            let count = entry.bytes.min(MOST_NODES);
            entry.answer = Some(make(self, entry.call, &mut bytes[..count]));
        }
    }
}
