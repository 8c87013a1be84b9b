//! What liveness needs of a code word.

/// Where control goes from a code word, and what is read and written there. Bit k of a set stands for
/// location k.
#[derive(Clone, Copy)]
pub struct Flow {
    /// The locations that count as read, before what is written.
    pub reads: u64,
    pub writes: u64,
    /// Whether the next word may come behind it.
    pub falls: bool,
    /// The place of the code word that it names, or a number past the words.
    pub target: u32,
}
