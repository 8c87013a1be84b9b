//! The code words of a program, and its blocks.

ghost use Rattle.std.specs.Prelude.{◌≡◌, ◌≤◌, ◌<◌, ◌+◌, ◌*◌, ◌^◌, All, drop, length, take};
ghost use Rattle.block_find.specs.Prelude.{all_blocks, block_at, AreBlocksOf};
ghost use Rattle.code_layout.specs.Decoded.{AreDecodedAs, IsLegalDecoded};
ghost use Rattle.code_layout.specs.Places.{no_registers, place_of};
ghost use Rattle.code_layout.specs.Code.{LaysWords};
ghost use Rattle.code_layout.specs.Layout.{ArePlansFor, steps_in, steps_of as steps_of_plans, words_of as words_of_block};

use block_find::{Blocks, each_begins_one, each_is_block};
use liveness::LiveSets;
use plan_form::{BlockPlan, Step};
use ppc_isa::Instr;

/// The code words of a program, where they stand in its memory, and the blocks that they make.
#[derive(Clone, Copy)]
pub struct Source<'a> {
    /// The address of the first code word.
    pub first: u32,
    /// The place among the code words of the one at which the program's run begins.
    pub entry: usize,
    /// The code words.
    pub words: &'a [u32],
    /// The code words, decoded: an illegal one is none.
    pub decoded: &'a [Option<Instr>],
    /// The blocks that they make.
    pub blocks: &'a Blocks,
    /// The plan of each block.
    pub plans: &'a [BlockPlan],
    /// The locations that are live before each code word.
    pub live: &'a LiveSets,
    ghost few: { length words.now ≤ 131072 },
    ghost room: { first + 4 * length words.now < 2 ^ 32 },
    ghost entered: { entry < length words.now },
    ghost each: { length decoded.now ≡ length words.now },
    ghost live_first: { live.now.first ≡ first },
    ghost live_each: { length live.now.bits ≡ length words.now },
}

impl Source<'_> {
    /// The place among the code words of the one with which a block begins.
    pub fn place(&self, block: usize) -> usize
        requires decoded { AreDecodedAs self.now.words.now self.now.decoded.now }
        requires blocks { AreBlocksOf self.now.first self.now.entry self.now.words.now self.now.blocks.now }
        requires among { block < length (all_blocks self.now.blocks.now) }
        ensures place { result ≡ place_of self.now.first (block_at (all_blocks self.now.blocks.now) block).at }
        ensures within { result < length self.now.words.now }
    {
        each_is_block();
        ((self.blocks.at(block).at - self.first) / 4) as usize
    }

    /// The steps of a block's plan.
    pub fn steps_of(&self, block: usize) -> &[Step]
        requires decoded { AreDecodedAs self.now.words.now self.now.decoded.now }
        requires blocks { AreBlocksOf self.now.first self.now.entry self.now.words.now self.now.blocks.now }
        requires plans { ArePlansFor self.now.first self.now.decoded.now (all_blocks self.now.blocks.now) (steps_of_plans self.now.plans.now) }
        requires among { block < length (all_blocks self.now.blocks.now) }
        ensures steps { result.now ≡ steps_in (all_blocks self.now.blocks.now) (steps_of_plans self.now.plans.now) (block_at (all_blocks self.now.blocks.now) block) }
        ensures lays { LaysWords 6 no_registers (words_of_block self.now.first self.now.decoded.now (block_at (all_blocks self.now.blocks.now) block)) result.now no_registers }
    {
        each_begins_one();
        each_is_block();
        self.plans[block].plan.steps.as_slice()
    }

    /// The words of a block, decoded.
    pub fn words_of(&self, block: usize) -> &[Option<Instr>]
        requires decoded { AreDecodedAs self.now.words.now self.now.decoded.now }
        requires blocks { AreBlocksOf self.now.first self.now.entry self.now.words.now self.now.blocks.now }
        requires among { block < length (all_blocks self.now.blocks.now) }
        ensures words { result.now ≡ words_of_block self.now.first self.now.decoded.now (block_at (all_blocks self.now.blocks.now) block) }
        ensures count { length result.now ≡ length (block_at (all_blocks self.now.blocks.now) block).words }
        ensures legal { All IsLegalDecoded result.now }
        ensures short { length result.now ≤ 64 }
    {
        each_is_block();
        let count = self.blocks.at(block).words.as_slice().len();
        part(self.decoded, self.place(block), count)
    }
}

// So many words from a place on.
fn part(words: &[Option<Instr>], place: usize, count: usize) -> &[Option<Instr>]
    requires { place + count ≤ length words.now }
    ensures { result.now ≡ take count (drop place words.now) }
{
    &words[place..place + count]
}
