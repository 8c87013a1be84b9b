//! Rows of IA-32, and what its machine does with addresses and calls.

ghost use Rattle.worked_rows.specs.HostRows.{SumsShown, LogicShown, MovesShown, WrittenCountsShown};
ghost use Rattle.worked_rows.specs.HostCalls.{AddressesWrap, AnswersShown};

/// Carries, borrows and overflow, with and without a carry that comes in.
pub fn sums()
    ensures { SumsShown }
{}

/// Logic clears CF and OF. A move on a condition that fails keeps the old value; a sign is copied upward.
pub fn logic_and_moves()
    ensures logic { LogicShown }
    ensures moves { MovesShown }
{}

/// Counts that stand in the op: none changes nothing, 1 defines OF, and above that OF is the processor's choice.
pub fn shifts_by_written_counts()
    ensures { WrittenCountsShown }
{}

/// Base, index and displacement are added modulo 2^32, and so are the addresses of the bytes of a number.
pub fn wrapping_addresses()
    ensures { AddressesWrap }
{}

/// What a call of int 0x80 asks, and what eax and the buffer have behind its answer.
pub fn answers_to_calls()
    ensures { AnswersShown }
{}
