//! The code words of a program.
ghost use Rattle.std.specs.Prelude.{◌≤◌, ◌<◌, ◌+◌, ◌*◌, ◌^◌, length};

/// The code words of a program, from 1 to 131072, where they stand in its memory.
#[derive(Clone, Copy)]
pub struct Code<'a> {
    /// The address of the first code word.
    pub first: u32,
    /// The place among the code words of the one at which the program's run begins.
    pub entry: usize,
    /// The code words.
    pub words: &'a [u32],
    ghost few: { length words.now ≤ 131072 },
    ghost low: { first + 4 * length words.now < 2 ^ 32 },
    ghost entered: { entry < length words.now },
}
