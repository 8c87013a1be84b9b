//! Flags that several rows make.

ghost use Rattle.std.specs.Prelude.{◌≡◌, ◌≤◌, IfOk, OnErr, IsTrue};
ghost use Rattle.word_kit.specs.Prelude.{GivesFlag, plain_operations};
ghost use Rattle.word_kit.specs.Algebra.{IsLater};
ghost use Rattle.ia_alu.specs.Parts.{choose_term, zero_term, overflow_term, count_term, last_left_term, last_right_term, zero_after_term, over_after_term};

use word_kit::{Alg, NoMemory};

/// The flag `c` where `b` is true, else `d`.
pub(crate) fn choose<A: Alg>(alg: &mut A, b: A::B, c: A::B, d: A::B) -> Result<A::B, NoMemory>
    requires b_owned { A.flag_reach b ≤ A.extent alg.old }
    requires c_owned { A.flag_reach c ≤ A.extent alg.old }
    requires d_owned { A.flag_reach d ≤ A.extent alg.old }
    ensures later { IsLater A.Alg alg.old alg.new }
    ensures makes { IfOk result (λ r. record { flag = r; held = A.held alg.new } ≡ choose_term A.ops (A.held alg.old) b c d) }
    ensures fails { OnErr result (IsTrue A.takes_memory) }
    ensures gives { IfOk result (λ r. GivesFlag A.Alg alg.new r (λ v. (choose_term plain_operations tt (A.truth b v) (A.truth c v) (A.truth d v)).flag)) }
{
    let zero = alg.lit(0);
    let one = alg.put_bit(zero, 0, c);
    let other = alg.put_bit(zero, 0, d);
    let picked = alg.pick(b, one, other)?;
    Ok(alg.bit(picked, 0))
}

/// Whether a word is 0.
pub(crate) fn is_zero<A: Alg>(alg: &mut A, x: A::W) -> Result<A::B, NoMemory>
    requires x_owned { A.word_reach x ≤ A.extent alg.old }
    ensures later { IsLater A.Alg alg.old alg.new }
    ensures makes { IfOk result (λ r. record { flag = r; held = A.held alg.new } ≡ zero_term A.ops (A.held alg.old) x) }
    ensures fails { OnErr result (IsTrue A.takes_memory) }
    ensures gives { IfOk result (λ r. GivesFlag A.Alg alg.new r (λ v. (zero_term plain_operations tt (A.word x v)).flag)) }
{
    let zero = alg.lit(0);
    alg.equal(x, zero)
}

/// Whether a sum has another sign than both its terms.
pub(crate) fn overflows<A: Alg>(alg: &mut A, x: A::W, y: A::W, sum: A::W) -> Result<A::B, NoMemory>
    requires x_owned { A.word_reach x ≤ A.extent alg.old }
    requires y_owned { A.word_reach y ≤ A.extent alg.old }
    requires sum_owned { A.word_reach sum ≤ A.extent alg.old }
    ensures later { IsLater A.Alg alg.old alg.new }
    ensures makes { IfOk result (λ r. record { flag = r; held = A.held alg.new } ≡ overflow_term A.ops (A.held alg.old) x y sum) }
    ensures fails { OnErr result (IsTrue A.takes_memory) }
    ensures gives { IfOk result (λ r. GivesFlag A.Alg alg.new r (λ v. (overflow_term plain_operations tt (A.word x v) (A.word y v) (A.word sum v)).flag)) }
{
    let x_sign = alg.bit(x, 31);
    let y_sign = alg.bit(y, 31);
    let sum_sign = alg.bit(sum, 31);
    let from_x = alg.differ(x_sign, sum_sign)?;
    let from_y = alg.differ(y_sign, sum_sign)?;
    alg.both(from_x, from_y)
}

/// Whether the low five bits of a count are a number.
pub(crate) fn is_count<A: Alg>(alg: &mut A, count: A::W, n: u32) -> Result<A::B, NoMemory>
    requires count_owned { A.word_reach count ≤ A.extent alg.old }
    ensures later { IsLater A.Alg alg.old alg.new }
    ensures makes { IfOk result (λ r. record { flag = r; held = A.held alg.new } ≡ count_term A.ops (A.held alg.old) count n) }
    ensures fails { OnErr result (IsTrue A.takes_memory) }
    ensures gives { IfOk result (λ r. GivesFlag A.Alg alg.new r (λ v. (count_term plain_operations tt (A.word count v) n).flag)) }
{
    let ones = alg.lit(31);
    let low = alg.and(count, ones)?;
    let number = alg.lit(n);
    alg.equal(low, number)
}

/// The last bit that leaves on the left, for a count above 0.
pub(crate) fn last_left<A: Alg>(alg: &mut A, x: A::W, count: A::W) -> Result<A::B, NoMemory>
    requires x_owned { A.word_reach x ≤ A.extent alg.old }
    requires count_owned { A.word_reach count ≤ A.extent alg.old }
    ensures later { IsLater A.Alg alg.old alg.new }
    ensures makes { IfOk result (λ r. record { flag = r; held = A.held alg.new } ≡ last_left_term A.ops (A.held alg.old) x count) }
    ensures fails { OnErr result (IsTrue A.takes_memory) }
    ensures gives { IfOk result (λ r. GivesFlag A.Alg alg.new r (λ v. (last_left_term plain_operations tt (A.word x v) (A.word count v)).flag)) }
{
    let minus_one = alg.lit(0xffff_ffff);
    let no_carry = alg.flag(false);
    let (less, _) = alg.add(count, minus_one, no_carry)?;
    let before = alg.shift_left(x, less)?;
    Ok(alg.bit(before, 31))
}

/// The last bit that leaves on the right, for a count above 0.
pub(crate) fn last_right<A: Alg>(alg: &mut A, x: A::W, count: A::W) -> Result<A::B, NoMemory>
    requires x_owned { A.word_reach x ≤ A.extent alg.old }
    requires count_owned { A.word_reach count ≤ A.extent alg.old }
    ensures later { IsLater A.Alg alg.old alg.new }
    ensures makes { IfOk result (λ r. record { flag = r; held = A.held alg.new } ≡ last_right_term A.ops (A.held alg.old) x count) }
    ensures fails { OnErr result (IsTrue A.takes_memory) }
    ensures gives { IfOk result (λ r. GivesFlag A.Alg alg.new r (λ v. (last_right_term plain_operations tt (A.word x v) (A.word count v)).flag)) }
{
    let minus_one = alg.lit(0xffff_ffff);
    let no_carry = alg.flag(false);
    let (less, _) = alg.add(count, minus_one, no_carry)?;
    let before = alg.shift_right(x, less)?;
    Ok(alg.bit(before, 0))
}

/// ZF after a shift that gives `value`: the old one where there was none.
pub(crate) fn zero_after<A: Alg>(
    alg: &mut A,
    none: A::B,
    old: A::B,
    value: A::W,
) -> Result<A::B, NoMemory>
    requires none_owned { A.flag_reach none ≤ A.extent alg.old }
    requires old_owned { A.flag_reach old ≤ A.extent alg.old }
    requires value_owned { A.word_reach value ≤ A.extent alg.old }
    ensures later { IsLater A.Alg alg.old alg.new }
    ensures makes { IfOk result (λ r. record { flag = r; held = A.held alg.new } ≡ zero_after_term A.ops (A.held alg.old) none old value) }
    ensures fails { OnErr result (IsTrue A.takes_memory) }
    ensures gives { IfOk result (λ r. GivesFlag A.Alg alg.new r (λ v. (zero_after_term plain_operations tt (A.truth none v) (A.truth old v) (A.word value v)).flag)) }
{
    let zero = is_zero(alg, value)?;
    choose(alg, none, old, zero)
}

/// OF after a shift: the old one where there was none, for a count of 1 whether `p` and `q` differ, else the free one.
pub(crate) fn over_after<A: Alg>(
    alg: &mut A,
    none: A::B,
    count: A::W,
    old: A::B,
    p: A::B,
    q: A::B,
    free: A::B,
) -> Result<A::B, NoMemory>
    requires none_owned { A.flag_reach none ≤ A.extent alg.old }
    requires count_owned { A.word_reach count ≤ A.extent alg.old }
    requires old_owned { A.flag_reach old ≤ A.extent alg.old }
    requires p_owned { A.flag_reach p ≤ A.extent alg.old }
    requires q_owned { A.flag_reach q ≤ A.extent alg.old }
    requires free_owned { A.flag_reach free ≤ A.extent alg.old }
    ensures later { IsLater A.Alg alg.old alg.new }
    ensures makes { IfOk result (λ r. record { flag = r; held = A.held alg.new } ≡ over_after_term A.ops (A.held alg.old) none count old p q free) }
    ensures fails { OnErr result (IsTrue A.takes_memory) }
    ensures gives { IfOk result (λ r. GivesFlag A.Alg alg.new r (λ v. (over_after_term plain_operations tt (A.truth none v) (A.word count v) (A.truth old v) (A.truth p v) (A.truth q v) (A.truth free v)).flag)) }
{
    let over = alg.differ(p, q)?;
    let once = is_count(alg, count, 1)?;
    let chosen = choose(alg, once, over, free)?;
    choose(alg, none, old, chosen)
}
