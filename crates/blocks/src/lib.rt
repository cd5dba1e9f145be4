// The subject: yards, limits, blocks and ranks. The definitions are in specs/; each function here carries a theorem about them on its
// contract, so that the check asks for its proof. None of them computes anything.
#![tactic(auto)]

ghost use Rattle.std.specs.Prelude.{ℕ, ◌+◌, pos};
ghost use Rattle.std.specs.List.{AllByRecursion};
ghost use Rattle.blocks.specs.Sets.{nobody};
ghost use Rattle.blocks.specs.Blocks.{block, shortfall};
ghost use Rattle.blocks.specs.Examples.{Right, RightSides, examples, side_examples};
ghost use Rattle.blocks.specs.Theorems.{BlockExists, BlockUnique, ShortfallIs, ShortfallUnique, BlocksNested, BlockEmpty, RankTells, ShortfallAdded, ShortfallDropped, RanksAdded, RanksDropped, SidesTellBlock, SidesTellShortfall, ChainMoves, ChainExactly, AdditionTurnsOneChain, DropTurnsOneChain, EvenSidesExist, SettlingEnds};

// Every level has a block, and only one.
pub fn block_exists_and_is_unique()
    ensures exists { BlockExists block }
    ensures unique { BlockUnique }
{}

// The shortfall is the largest excess of any set; some set has it; no other number is that.
pub fn shortfall_is_the_largest_excess()
    ensures largest { ShortfallIs shortfall }
    ensures unique { ShortfallUnique }
{}

// A higher level's block lies within a lower one's.
pub fn blocks_are_nested()
    ensures { BlocksNested 256 }
{}

// With at most 256 buses, no node is left at level 256.
pub fn no_block_is_left_at_the_top()
    ensures { BlockEmpty 256 }
{}

// The block of a level is exactly the nodes of that rank or more.
pub fn rank_tells_the_blocks()
    ensures { RankTells 255 }
{}

// One pair more or less moves no shortfall by more than one.
pub fn a_pair_moves_a_shortfall_by_at_most_one()
    ensures added { ShortfallAdded 1 }
    ensures dropped { ShortfallDropped 1 }
{}

// One pair more or less moves only ranks that stood at one common rank, each by exactly one; the named bus is exempt and never goes
// the wrong way.
pub fn a_pair_moves_one_common_rank()
    ensures added { RanksAdded (pos 1) }
    ensures dropped { RanksDropped (pos 1) }
{}

// With even sides, chains and loads tell blocks and shortfalls.
pub fn even_sides_tell_block_and_shortfall()
    ensures block { SidesTellBlock 255 }
    ensures shortfall { SidesTellShortfall 255 }
{}

// A chain turned moves one load from its last node to its first, and turns nothing else.
pub fn a_chain_turned_moves_one_load()
    ensures loads { ChainMoves 1 }
    ensures exactly { ChainExactly }
{}

// One pair more or less: one chain of the sides as they stood, turned, makes them even again.
pub fn a_pair_turns_one_chain()
    ensures added { AdditionTurnsOneChain }
    ensures dropped { DropTurnsOneChain }
{}

// Every yard has even sides, and turning chains from under to over comes to an end.
pub fn settling_ends()
    ensures exist { EvenSidesExist }
    ensures falls { SettlingEnds 255 }
{}

// The example yards have the ranks and shortfalls that their table says, and the sides in theirs are even or not as it says.
pub fn example_yards()
    ensures ranks { AllByRecursion Right examples }
    ensures sides { AllByRecursion RightSides side_examples }
{}
