//! What the variables of a circuit stand for.

use crate::literals::Lit;

/// A word that no gate ties to its operands, which are words: a half of a product, or a part of a division of two words
/// by one. Whether words are read as signed stands first.
#[derive(Clone, Copy, PartialEq, Eq, Hash)]
pub enum FreeWord {
    ProductLow([Lit; 32], [Lit; 32]),
    ProductHigh(bool, [Lit; 32], [Lit; 32]),
    Quotient(bool, [Lit; 32], [Lit; 32], [Lit; 32]),
    Remainder(bool, [Lit; 32], [Lit; 32], [Lit; 32]),
    DivideFaults(bool, [Lit; 32], [Lit; 32], [Lit; 32]),
}

/// What a variable stands for: an input, which knows its place, a gate of signed variables, or a bit of a free word by
/// its exponent.
#[derive(Clone, Copy, PartialEq, Eq, Hash)]
pub enum Node {
    Input(u32),
    And(i32, i32),
    Xor(i32, i32),
    Free(FreeWord, u8),
}
