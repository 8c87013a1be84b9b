//! Blocks with their words.
ghost use Rattle.std.specs.Prelude.{◌≡◌, ◌<◌, ◌≤◌, length};
ghost use Rattle.block_find.specs.Laws.{all_blocks, block_at};

use std::marker::Model;

/// The words of a block. Contracts see the list of them.
#[derive(Drop)]
pub struct Words {
    words: Vec<u32>,
}

impl Model for Words {
    ghost use Rattle.std.specs.Prelude.{List, ℕ};

    ghost Value = { List ℕ };

    ghost view = { λ w. w.words.items };
}

impl From<Vec<u32>> for Words {
    ghost from_gives = { λ vec words. words ≡ vec.items };

    /// Takes no memory.
    fn from(words: Vec<u32>) -> Words {
        Words { words }
    }
}

impl Words {
    pub fn as_slice(&self) -> &[u32]
        ensures { result.now ≡ self.now }
    {
        self.words.as_slice()
    }

    /// Takes no memory.
    pub fn into_vec(self) -> Vec<u32>
        ensures { result.items ≡ self }
    {
        self.words
    }
}

/// Code words that run one behind another.
#[derive(Drop)]
pub struct Block {
    /// The address of the first one.
    pub at: u32,
    pub words: Words,
}

/// Blocks in order. Contracts see the list of them.
#[derive(Drop)]
pub struct BlockList {
    blocks: Vec<Block>,
}

impl Model for BlockList {
    ghost use Rattle.std.specs.Prelude.{List};
    ghost use Rattle.block_find.specs.declared.block.Block.{Block};

    ghost Value = { List Block };

    ghost view = { λ b. b.blocks.items };
}

impl From<Vec<Block>> for BlockList {
    ghost from_gives = { λ vec blocks. blocks ≡ vec.items };

    /// Takes no memory.
    fn from(blocks: Vec<Block>) -> BlockList {
        BlockList { blocks }
    }
}

impl BlockList {
    pub fn as_slice(&self) -> &[Block]
        ensures { result.now ≡ self.now }
    {
        self.blocks.as_slice()
    }

    /// Takes no memory.
    pub fn into_vec(self) -> Vec<Block>
        ensures { result.items ≡ self }
    {
        self.blocks
    }
}

/// The blocks of a program.
#[derive(Drop)]
pub struct Blocks {
    /// The blocks that leaders begin, ascending. They divide the code words.
    pub leaders: BlockList,
    /// The code words that are no leaders, ascending, each as a block of its own.
    pub singles: BlockList,
}

impl Blocks {
    /// How many blocks there are.
    pub fn count(&self) -> usize
        requires { length (all_blocks self.now) ≤ 262144 }
        ensures { result ≡ length (all_blocks self.now) }
    {
        self.leaders.as_slice().len() + self.singles.as_slice().len()
    }

    /// The block at a place among all: the leaders' come first, and behind them the singles.
    pub fn at(&self, place: usize) -> &Block
        requires { place < length (all_blocks self.now) }
        ensures { result.now ≡ block_at (all_blocks self.now) place }
    {
        let leaders = self.leaders.as_slice();
        if place < leaders.len() {
            &leaders[place]
        } else {
            &self.singles.as_slice()[place - leaders.len()]
        }
    }
}
