// Limit rules: one limit for all, or rates read from a sheet.
#![tactic(auto)]

ghost use Rattle.std.specs.Prelude.{◌≡◌, ℕ, ◌≤◌, List, length};
ghost use Rattle.blocks.specs.Limits.{Limits, Lawful};
ghost use Rattle.rules.specs.Rated.{rated, ByteAt, WordAt, SheetChecked};
ghost use Rattle.rules.specs.Rules.{flat, Lowest};
ghost use Rattle.std.proofs.Common.{rules};
ghost use Rattle.rules.specs.Rates.{rated_lawful};

use std::convert::AsSlice;

// A limit rule. What it says is fixed: asking changes nothing.
pub trait Rule {
    ghost limits: { Self → Limits };

    fn bus_limit(&self, bus: u16) -> u32
        ensures { result ≡ (limits self.now).bus bus };

    fn post_limit(&self, post: u16, level: u16) -> u32
        ensures { result ≡ (limits self.now).post level post };

    ghost lawful: { (r : Self) → Lawful (limits r) };
}

// One limit for all buses; a post's limit is the level.
#[derive(Clone, Copy, PartialEq, Eq, Debug)]
pub struct Flat {
    limit: u8,
    ghost small: { limit ≤ 255 },
}

impl Flat {
    pub fn new(limit: u8) -> Flat
        ensures { result.limit ≡ limit }
    {
        Flat { limit }
    }
}

impl Rule for Flat {
    ghost limits = { λ f. flat f.limit };

    ghost lawful = { Prim.search rules };

    fn bus_limit(&self, _bus: u16) -> u32 {
        u32::from(self.limit)
    }

    fn post_limit(&self, _post: u16, level: u16) -> u32 {
        u32::from(level)
    }
}

// Why a sheet does not fit its sizes: what was found. The numbers are in specs/Rated.
#[derive(Clone, Copy, PartialEq, Eq, Debug)]
pub enum SheetFault {
    // 41: the length is not one byte a bus and two a post
    WrongLength { length: usize },
    // 42: the lowest post whose step is 0
    NoStep { post: u16 },
}

// A sheet of bytes, asked place by place: so it may be computed, or lie in parts.
pub trait Sheet {
    // the bytes that it stands for
    ghost bytes: { Self → List ℕ };

    fn len(&self) -> usize
        ensures { result ≡ length (bytes self.now) };

    // The byte at a place, if the sheet reaches that far.
    fn byte(&self, at: usize) -> Option<u8>
        ensures { ByteAt (bytes self.now) at result };
}

// Bytes that lie side by side, lent or owned, are a sheet as they are.
impl<S: AsSlice<u8>> Sheet for S {
    ghost bytes = { λ s. S.items s };

    fn len(&self) -> usize {
        self.as_slice().len()
    }

    fn byte(&self, at: usize) -> Option<u8> {
        self.as_slice().get(at).copied()
    }
}

// Limits read from a sheet.
#[derive(Clone, Copy, PartialEq, Eq, Debug)]
pub struct Rated<S> {
    sheet: S,
    buses: u16,
    posts: u16,
}

impl<S: Sheet> Rated<S> {
    pub fn new(sheet: S, buses: u16, posts: u16) -> Rated<S>
        ensures { (result.sheet ≡ sheet) × (result.buses ≡ buses) × (result.posts ≡ posts) }
    {
        Rated {
            sheet,
            buses,
            posts,
        }
    }

    // Does the sheet fit its sizes, with a step for each post?
    pub fn check(&self) -> Result<(), SheetFault>
        ensures { SheetChecked (S.bytes self.now.sheet) self.now.buses self.now.posts result }
    {
        let length = self.sheet.len();
        if length != usize::from(self.buses) + 2 * usize::from(self.posts) {
            return Err(SheetFault::WrongLength { length });
        }
        (0..self.posts)
            .find(|&post| self.word(post).is_some_and(|word| word % 64 == 0))
            .map_or(Ok(()), |post| Err(SheetFault::NoStep { post }))
    }

    // The two bytes of a post, the most significant first, if it is one of the rule's and the sheet has both.
    fn word(&self, post: u16) -> Option<u16>
        ensures { WordAt (S.bytes self.now.sheet) self.now.buses self.now.posts post result }
    {
        if post >= self.posts {
            return None;
        }
        let at = usize::from(self.buses) + 2 * usize::from(post);
        let high = self.sheet.byte(at)?;
        let low = self.sheet.byte(at + 1)?;
        Some(u16::from(high) * 256 + u16::from(low))
    }
}

impl<S: Sheet> Rule for Rated<S> {
    ghost limits = { λ r. rated (S.bytes r.sheet) r.buses r.posts };

    ghost lawful = { λ r. rated_lawful (S.bytes r.sheet) r.buses r.posts };

    fn bus_limit(&self, bus: u16) -> u32 {
        if bus >= self.buses {
            return 0;
        }
        self.sheet.byte(usize::from(bus)).map_or(0, u32::from)
    }

    fn post_limit(&self, post: u16, level: u16) -> u32 {
        // The word 0 has what a post that is not listed has: start 0, and step 0, which counts as 1.
        let word = self.word(post).unwrap_or(0);
        u32::from(word / 64) + u32::from(word % 64).max(1) * u32::from(level)
    }
}

// The lowest level, 0 to 256, at which the post's limit is at least `need`. Limits rise with the level, so halving finds it.
// std halves over lists alone (`partition_point`), and here each level's limit is computed, so the loop stands here.
pub fn lowest_level<R: Rule>(rule: &R, post: u16, need: u32) -> Option<u16>
    ensures { Lowest (R.limits rule.now) post need result }
{
    if rule.post_limit(post, 256) < need {
        return None;
    }
    let mut low = 0;
    let mut high = 256;
    while low < high {
        let middle = (low + high) / 2;
        if rule.post_limit(post, middle) < need {
            low = middle + 1;
        } else {
            high = middle;
        }
    }
    Some(low)
}

#[cfg(test)]
mod tests {
    use super::*;

    // Two buses; a post with start 5 and step 3, one with step 0, and half a post.
    const SHEET: [u8; 7] = [200, 7, 1, 67, 0, 0, 9];

    #[test]
    fn flat_limits(rt: HostRuntime) {
        let rule = Flat::new(255);
        assert_eq!(rt; rule.bus_limit(9), 255);
        assert_eq!(rt; rule.post_limit(9, 256), 256);
    }

    #[test]
    fn rated_limits(rt: HostRuntime) {
        let rule = Rated::new(&SHEET[..], 2, 3);
        assert_eq!(rt; rule.bus_limit(0), 200);
        assert_eq!(rt; rule.bus_limit(2), 0);
        assert_eq!(rt; rule.post_limit(0, 10), 35);
        assert_eq!(rt; rule.post_limit(1, 10), 10);
        assert_eq!(rt; rule.post_limit(2, 10), 10, "half a post");
        assert_eq!(rt; Rated::new(&SHEET[..], 2, 0).post_limit(0, 10), 10);
        assert_eq!(rt; Rated::new(SHEET, 60000, 3).bus_limit(59999), 0);
        assert_eq!(rt; lowest_level(&rule, 0, 36), Some(11));
        assert_eq!(rt; lowest_level(&rule, 0, 5 + 3 * 256 + 1), None);
    }

    // A sheet that lends no slice: it is asked byte by byte.
    #[derive(Drop)]
    struct Registers([u8; 7]);

    impl Sheet for Registers {
        ghost bytes = { λ s. s.0 };

        fn len(&self) -> usize {
            self.0.len()
        }

        fn byte(&self, at: usize) -> Option<u8> {
            self.0.get(at).copied()
        }
    }

    #[test]
    fn sheet_in_registers(rt: HostRuntime) {
        let rule = Rated::new(Registers(SHEET), 2, 3);
        assert_eq!(rt; rule.check(), Err(SheetFault::WrongLength { length: 7 }));
        assert_eq!(rt; rule.bus_limit(1), 7);
        assert_eq!(rt; rule.post_limit(0, 10), 35);
        assert_eq!(rt; rule.post_limit(2, 10), 10, "half a post");
    }

    #[test]
    fn length_before_step(rt: HostRuntime) {
        let short = Rated::new(&SHEET[..], 2, 3);
        assert_eq!(rt; short.check(), Err(SheetFault::WrongLength { length: 7 }));
        let flat = Rated::new(&SHEET[0..6], 2, 2);
        assert_eq!(rt; flat.check(), Err(SheetFault::NoStep { post: 1 }));
        assert_eq!(rt; Rated::new(&SHEET[0..4], 2, 1).check(), Ok(()));
    }
}
