//! The algebra that instructions and ops are written over.

ghost use Rattle.std.specs.Prelude.{◌≡◌, ◌<◌, ◌≤◌, ◌^◌, ◌&&◌, ◌||◌, ℕ, Bool, cond, eqb, not, IfOk, OnOk, OnErr, IsTrue};
ghost use Rattle.word_kit.specs.Words.{complement, same, sum_word, sum_carries, is_less};
ghost use Rattle.word_kit.specs.Bits.{bit_of, with_bit, byte_of, joined, word_and, word_or, word_xor, shifted_left, shifted_right, shifted_arith, rotated};
ghost use Rattle.word_kit.specs.Products.{product_low, product_high, quotient, remainder, divide_faults};
ghost use Rattle.word_kit.specs.Operations.{Operations};
ghost use Rattle.word_kit.specs.Frame.{IsLater, MayUntie};

use crate::NoMemory;

/// Words of 32 bits and flags, and what can be made of them: numbers themselves (`Plain`), or gates that compute them.
///
/// A value means a number or a truth under each assignment of truths to variables, and no call changes the meaning of a
/// value. Each call answers a value that means its operation on the meanings of its operands, under every assignment
/// that the algebra admits. Each call that takes values has the condition that the algebra owns them; what a call
/// answers is owned. What is owned stays so, what is admitted later was admitted before, and an input stays an input.
///
/// A call answers NoMemory only where the algebra is one that takes memory. Only products and divisions raise the
/// opaque number, which counts results that nothing ties to their operands.
///
/// Besides, each call's result is the one that `ops` makes of what the algebra held. So two algebras of one kind that
/// hold the same make the same of the same operands.
pub trait Alg {
    /// A word of 32 bits.
    type W: Copy;

    /// A flag.
    type B: Copy;

    // What a word and a flag mean under an assignment of truths to variables. No state stands here.
    ghost word: { Self.W → (ℕ → Bool) → ℕ };

    ghost truth: { Self.B → (ℕ → Bool) → Bool };
    // The algebra owns a value whose reach is within its extent.
    ghost extent: { Self → ℕ };

    ghost word_reach: { Self.W → ℕ };

    ghost flag_reach: { Self.B → ℕ };
    // The assignments that fit what the algebra holds.
    ghost admits: { Self → (ℕ → Bool) → Type 0 };
    // Whether the variable k + 1 is an input, which nothing ties.
    ghost inputs: { Self → ℕ → Type 0 };
    // How many results nothing ties to their operands.
    ghost opaque: { Self → ℕ };
    // Whether a call may want memory that isn't there.
    ghost takes_memory: { Bool };
    // What the algebra holds, and what each operation makes of it.
    ghost Held: { Type 0 };

    ghost held: { Self → Held };

    ghost ops: { Operations Self.W Self.B Held };

    /// The word that is this number.
    fn lit(&mut self, value: u32) -> Self::W
        ensures same { self.new ≡ self.old }
        ensures made { result ≡ ops.lit_of value }
        ensures owned { word_reach result ≤ extent self.new }
        ensures means { (a : ℕ → Bool) → word result a ≡ value };

    /// The flag that is this truth.
    fn flag(&mut self, value: bool) -> Self::B
        ensures same { self.new ≡ self.old }
        ensures made { result ≡ ops.flag_of value }
        ensures owned { flag_reach result ≤ extent self.new }
        ensures means { (a : ℕ → Bool) → truth result a ≡ value };

    /// The bit whose exponent is `place`, below 32.
    fn bit(&mut self, x: Self::W, place: u8) -> Self::B
        requires x_owned { word_reach x ≤ extent self.old }
        requires within { place < 32 }
        ensures same { self.new ≡ self.old }
        ensures made { result ≡ ops.bit_of x place }
        ensures owned { flag_reach result ≤ extent self.new }
        ensures means { (a : ℕ → Bool) → truth result a ≡ bit_of (word x a) place };

    /// `x` with `b` as the bit whose exponent is `place`, below 32.
    fn put_bit(&mut self, x: Self::W, place: u8, b: Self::B) -> Self::W
        requires x_owned { word_reach x ≤ extent self.old }
        requires b_owned { flag_reach b ≤ extent self.old }
        requires within { place < 32 }
        ensures same { self.new ≡ self.old }
        ensures made { result ≡ ops.put_bit_of x place b }
        ensures owned { word_reach result ≤ extent self.new }
        ensures means { (a : ℕ → Bool) → word result a ≡ with_bit (word x a) place (truth b a) };

    /// All bits turned over.
    fn not(&mut self, x: Self::W) -> Self::W
        requires x_owned { word_reach x ≤ extent self.old }
        ensures same { self.new ≡ self.old }
        ensures made { result ≡ ops.not_of x }
        ensures owned { word_reach result ≤ extent self.new }
        ensures means { (a : ℕ → Bool) → word result a ≡ complement (word x a) };

    /// The other truth.
    fn flip(&mut self, b: Self::B) -> Self::B
        requires b_owned { flag_reach b ≤ extent self.old }
        ensures same { self.new ≡ self.old }
        ensures made { result ≡ ops.flip_of b }
        ensures owned { flag_reach result ≤ extent self.new }
        ensures means { (a : ℕ → Bool) → truth result a ≡ not (truth b a) };

    /// The byte `k`, below 4, byte 0 being the lowest.
    fn byte(&mut self, x: Self::W, k: u8) -> Self::W
        requires x_owned { word_reach x ≤ extent self.old }
        requires within { k < 4 }
        ensures same { self.new ≡ self.old }
        ensures made { result ≡ ops.byte_of x k }
        ensures owned { word_reach result ≤ extent self.new }
        ensures means { (a : ℕ → Bool) → word result a ≡ byte_of (word x a) k };

    /// The word of the low bytes of four words, the highest first.
    fn join(&mut self, b3: Self::W, b2: Self::W, b1: Self::W, b0: Self::W) -> Self::W
        requires b3_owned { word_reach b3 ≤ extent self.old }
        requires b2_owned { word_reach b2 ≤ extent self.old }
        requires b1_owned { word_reach b1 ≤ extent self.old }
        requires b0_owned { word_reach b0 ≤ extent self.old }
        ensures same { self.new ≡ self.old }
        ensures made { result ≡ ops.join_of b3 b2 b1 b0 }
        ensures owned { word_reach result ≤ extent self.new }
        ensures means { (a : ℕ → Bool) → word result a ≡ joined (word b3 a) (word b2 a) (word b1 a) (word b0 a) };

    /// `x + y + carry` as a word, and whether it reaches 2^32.
    fn add(
        &mut self,
        x: Self::W,
        y: Self::W,
        carry: Self::B,
    ) -> Result<(Self::W, Self::B), NoMemory>
        requires x_owned { word_reach x ≤ extent self.old }
        requires y_owned { word_reach y ≤ extent self.old }
        requires carry_owned { flag_reach carry ≤ extent self.old }
        ensures later { IsLater extent admits inputs opaque self.old self.new }
        ensures makes { IfOk result (λ r. record { word = r.0; carry = r.1; held = held self.new } ≡ ops.add_of (held self.old) x y carry) }
        ensures fails { OnErr result (IsTrue takes_memory) }
        ensures sum_owned { IfOk result (λ r. word_reach r.0 ≤ extent self.new) }
        ensures carry_owned { IfOk result (λ r. flag_reach r.1 ≤ extent self.new) }
        ensures sum { IfOk result (λ r. (a : ℕ → Bool) → admits self.new a → word r.0 a ≡ sum_word (word x a) (word y a) (truth carry a)) }
        ensures carry { IfOk result (λ r. (a : ℕ → Bool) → admits self.new a → truth r.1 a ≡ sum_carries (word x a) (word y a) (truth carry a)) };

    /// Whether `x` is below `y`, both read as signed or neither.
    fn less(&mut self, x: Self::W, y: Self::W, signed: bool) -> Result<Self::B, NoMemory>
        requires x_owned { word_reach x ≤ extent self.old }
        requires y_owned { word_reach y ≤ extent self.old }
        ensures later { IsLater extent admits inputs opaque self.old self.new }
        ensures makes { IfOk result (λ r. record { flag = r; held = held self.new } ≡ ops.less_of (held self.old) x y signed) }
        ensures fails { OnErr result (IsTrue takes_memory) }
        ensures owned { IfOk result (λ r. flag_reach r ≤ extent self.new) }
        ensures means { IfOk result (λ r. (a : ℕ → Bool) → admits self.new a → truth r a ≡ is_less (word x a) (word y a) signed) };

    /// Whether the words are the same number.
    fn equal(&mut self, x: Self::W, y: Self::W) -> Result<Self::B, NoMemory>
        requires x_owned { word_reach x ≤ extent self.old }
        requires y_owned { word_reach y ≤ extent self.old }
        ensures later { IsLater extent admits inputs opaque self.old self.new }
        ensures makes { IfOk result (λ r. record { flag = r; held = held self.new } ≡ ops.equal_of (held self.old) x y) }
        ensures fails { OnErr result (IsTrue takes_memory) }
        ensures owned { IfOk result (λ r. flag_reach r ≤ extent self.new) }
        ensures means { IfOk result (λ r. (a : ℕ → Bool) → admits self.new a → truth r a ≡ eqb (word x a) (word y a)) };

    /// `x` where `b` is true, else `y`.
    fn pick(&mut self, b: Self::B, x: Self::W, y: Self::W) -> Result<Self::W, NoMemory>
        requires b_owned { flag_reach b ≤ extent self.old }
        requires x_owned { word_reach x ≤ extent self.old }
        requires y_owned { word_reach y ≤ extent self.old }
        ensures later { IsLater extent admits inputs opaque self.old self.new }
        ensures makes { IfOk result (λ r. record { word = r; held = held self.new } ≡ ops.pick_of (held self.old) b x y) }
        ensures fails { OnErr result (IsTrue takes_memory) }
        ensures owned { IfOk result (λ r. word_reach r ≤ extent self.new) }
        ensures means { IfOk result (λ r. (a : ℕ → Bool) → admits self.new a → word r a ≡ cond (truth b a) (word x a) (word y a)) };

    /// And, bit by bit.
    fn and(&mut self, x: Self::W, y: Self::W) -> Result<Self::W, NoMemory>
        requires x_owned { word_reach x ≤ extent self.old }
        requires y_owned { word_reach y ≤ extent self.old }
        ensures later { IsLater extent admits inputs opaque self.old self.new }
        ensures makes { IfOk result (λ r. record { word = r; held = held self.new } ≡ ops.and_of (held self.old) x y) }
        ensures fails { OnErr result (IsTrue takes_memory) }
        ensures owned { IfOk result (λ r. word_reach r ≤ extent self.new) }
        ensures means { IfOk result (λ r. (a : ℕ → Bool) → admits self.new a → word r a ≡ word_and (word x a) (word y a)) };

    /// Or, bit by bit.
    fn or(&mut self, x: Self::W, y: Self::W) -> Result<Self::W, NoMemory>
        requires x_owned { word_reach x ≤ extent self.old }
        requires y_owned { word_reach y ≤ extent self.old }
        ensures later { IsLater extent admits inputs opaque self.old self.new }
        ensures makes { IfOk result (λ r. record { word = r; held = held self.new } ≡ ops.or_of (held self.old) x y) }
        ensures fails { OnErr result (IsTrue takes_memory) }
        ensures owned { IfOk result (λ r. word_reach r ≤ extent self.new) }
        ensures means { IfOk result (λ r. (a : ℕ → Bool) → admits self.new a → word r a ≡ word_or (word x a) (word y a)) };

    /// Exclusive or, bit by bit.
    fn xor(&mut self, x: Self::W, y: Self::W) -> Result<Self::W, NoMemory>
        requires x_owned { word_reach x ≤ extent self.old }
        requires y_owned { word_reach y ≤ extent self.old }
        ensures later { IsLater extent admits inputs opaque self.old self.new }
        ensures makes { IfOk result (λ r. record { word = r; held = held self.new } ≡ ops.xor_of (held self.old) x y) }
        ensures fails { OnErr result (IsTrue takes_memory) }
        ensures owned { IfOk result (λ r. word_reach r ≤ extent self.new) }
        ensures means { IfOk result (λ r. (a : ℕ → Bool) → admits self.new a → word r a ≡ word_xor (word x a) (word y a)) };

    /// To the left by the low five bits of `by`.
    fn shift_left(&mut self, x: Self::W, by: Self::W) -> Result<Self::W, NoMemory>
        requires x_owned { word_reach x ≤ extent self.old }
        requires by_owned { word_reach by ≤ extent self.old }
        ensures later { IsLater extent admits inputs opaque self.old self.new }
        ensures makes { IfOk result (λ r. record { word = r; held = held self.new } ≡ ops.shift_left_of (held self.old) x by) }
        ensures fails { OnErr result (IsTrue takes_memory) }
        ensures owned { IfOk result (λ r. word_reach r ≤ extent self.new) }
        ensures means { IfOk result (λ r. (a : ℕ → Bool) → admits self.new a → word r a ≡ shifted_left (word x a) (word by a)) };

    /// To the right by the low five bits of `by`; zeros come in.
    fn shift_right(&mut self, x: Self::W, by: Self::W) -> Result<Self::W, NoMemory>
        requires x_owned { word_reach x ≤ extent self.old }
        requires by_owned { word_reach by ≤ extent self.old }
        ensures later { IsLater extent admits inputs opaque self.old self.new }
        ensures makes { IfOk result (λ r. record { word = r; held = held self.new } ≡ ops.shift_right_of (held self.old) x by) }
        ensures fails { OnErr result (IsTrue takes_memory) }
        ensures owned { IfOk result (λ r. word_reach r ≤ extent self.new) }
        ensures means { IfOk result (λ r. (a : ℕ → Bool) → admits self.new a → word r a ≡ shifted_right (word x a) (word by a)) };

    /// To the right by the low five bits of `by`; copies of the sign come in.
    fn shift_arith(&mut self, x: Self::W, by: Self::W) -> Result<Self::W, NoMemory>
        requires x_owned { word_reach x ≤ extent self.old }
        requires by_owned { word_reach by ≤ extent self.old }
        ensures later { IsLater extent admits inputs opaque self.old self.new }
        ensures makes { IfOk result (λ r. record { word = r; held = held self.new } ≡ ops.shift_arith_of (held self.old) x by) }
        ensures fails { OnErr result (IsTrue takes_memory) }
        ensures owned { IfOk result (λ r. word_reach r ≤ extent self.new) }
        ensures means { IfOk result (λ r. (a : ℕ → Bool) → admits self.new a → word r a ≡ shifted_arith (word x a) (word by a)) };

    /// Turned to the left by the low five bits of `by`.
    fn rotate(&mut self, x: Self::W, by: Self::W) -> Result<Self::W, NoMemory>
        requires x_owned { word_reach x ≤ extent self.old }
        requires by_owned { word_reach by ≤ extent self.old }
        ensures later { IsLater extent admits inputs opaque self.old self.new }
        ensures makes { IfOk result (λ r. record { word = r; held = held self.new } ≡ ops.rotate_of (held self.old) x by) }
        ensures fails { OnErr result (IsTrue takes_memory) }
        ensures owned { IfOk result (λ r. word_reach r ≤ extent self.new) }
        ensures means { IfOk result (λ r. (a : ℕ → Bool) → admits self.new a → word r a ≡ rotated (word x a) (word by a)) };

    /// The low word of the product.
    fn mul_low(&mut self, x: Self::W, y: Self::W) -> Result<Self::W, NoMemory>
        requires x_owned { word_reach x ≤ extent self.old }
        requires y_owned { word_reach y ≤ extent self.old }
        ensures later { MayUntie extent admits inputs opaque self.old self.new }
        ensures makes { IfOk result (λ r. record { word = r; held = held self.new } ≡ ops.mul_low_of (held self.old) x y) }
        ensures fails { OnErr result (IsTrue takes_memory) }
        ensures owned { IfOk result (λ r. word_reach r ≤ extent self.new) }
        ensures means { IfOk result (λ r. (a : ℕ → Bool) → admits self.new a → word r a ≡ product_low (word x a) (word y a)) };

    /// The high word of the product of 64 bits, both words read as signed or neither.
    fn mul_high(&mut self, x: Self::W, y: Self::W, signed: bool) -> Result<Self::W, NoMemory>
        requires x_owned { word_reach x ≤ extent self.old }
        requires y_owned { word_reach y ≤ extent self.old }
        ensures later { MayUntie extent admits inputs opaque self.old self.new }
        ensures makes { IfOk result (λ r. record { word = r; held = held self.new } ≡ ops.mul_high_of (held self.old) x y signed) }
        ensures fails { OnErr result (IsTrue takes_memory) }
        ensures owned { IfOk result (λ r. word_reach r ≤ extent self.new) }
        ensures means { IfOk result (λ r. (a : ℕ → Bool) → admits self.new a → word r a ≡ product_high (word x a) (word y a) signed) };

    /// The 64-bit number of `high` and `low` divided by `by` toward 0: quotient, remainder, and whether `by` is 0 or the
    /// quotient doesn't fit a word. Where that is so, both words are 0.
    fn div(
        &mut self,
        high: Self::W,
        low: Self::W,
        by: Self::W,
        signed: bool,
    ) -> Result<(Self::W, Self::W, Self::B), NoMemory>
        requires high_owned { word_reach high ≤ extent self.old }
        requires low_owned { word_reach low ≤ extent self.old }
        requires by_owned { word_reach by ≤ extent self.old }
        ensures later { MayUntie extent admits inputs opaque self.old self.new }
        ensures makes { IfOk result (λ r. record { quotient = r.0; remainder = r.1; faults = r.2; held = held self.new } ≡ ops.div_of (held self.old) high low by signed) }
        ensures fails { OnErr result (IsTrue takes_memory) }
        ensures quotient_owned { IfOk result (λ r. word_reach r.0 ≤ extent self.new) }
        ensures remainder_owned { IfOk result (λ r. word_reach r.1 ≤ extent self.new) }
        ensures faults_owned { IfOk result (λ r. flag_reach r.2 ≤ extent self.new) }
        ensures quotient { IfOk result (λ r. (a : ℕ → Bool) → admits self.new a → word r.0 a ≡ quotient (word high a) (word low a) (word by a) signed) }
        ensures remainder { IfOk result (λ r. (a : ℕ → Bool) → admits self.new a → word r.1 a ≡ remainder (word high a) (word low a) (word by a) signed) }
        ensures faults { IfOk result (λ r. (a : ℕ → Bool) → admits self.new a → truth r.2 a ≡ divide_faults (word high a) (word low a) (word by a) signed) };

    /// Whether both are true.
    fn both(&mut self, b: Self::B, c: Self::B) -> Result<Self::B, NoMemory>
        requires b_owned { flag_reach b ≤ extent self.old }
        requires c_owned { flag_reach c ≤ extent self.old }
        ensures later { IsLater extent admits inputs opaque self.old self.new }
        ensures makes { IfOk result (λ r. record { flag = r; held = held self.new } ≡ ops.both_of (held self.old) b c) }
        ensures fails { OnErr result (IsTrue takes_memory) }
        ensures owned { IfOk result (λ r. flag_reach r ≤ extent self.new) }
        ensures means { IfOk result (λ r. (a : ℕ → Bool) → admits self.new a → truth r a ≡ (truth b a) && (truth c a)) };

    /// Whether one or both are true.
    fn either(&mut self, b: Self::B, c: Self::B) -> Result<Self::B, NoMemory>
        requires b_owned { flag_reach b ≤ extent self.old }
        requires c_owned { flag_reach c ≤ extent self.old }
        ensures later { IsLater extent admits inputs opaque self.old self.new }
        ensures makes { IfOk result (λ r. record { flag = r; held = held self.new } ≡ ops.either_of (held self.old) b c) }
        ensures fails { OnErr result (IsTrue takes_memory) }
        ensures owned { IfOk result (λ r. flag_reach r ≤ extent self.new) }
        ensures means { IfOk result (λ r. (a : ℕ → Bool) → admits self.new a → truth r a ≡ (truth b a) || (truth c a)) };

    /// Whether exactly one is true.
    fn differ(&mut self, b: Self::B, c: Self::B) -> Result<Self::B, NoMemory>
        requires b_owned { flag_reach b ≤ extent self.old }
        requires c_owned { flag_reach c ≤ extent self.old }
        ensures later { IsLater extent admits inputs opaque self.old self.new }
        ensures makes { IfOk result (λ r. record { flag = r; held = held self.new } ≡ ops.differ_of (held self.old) b c) }
        ensures fails { OnErr result (IsTrue takes_memory) }
        ensures owned { IfOk result (λ r. flag_reach r ≤ extent self.new) }
        ensures means { IfOk result (λ r. (a : ℕ → Bool) → admits self.new a → truth r a ≡ not (same (truth b a) (truth c a))) };
    // A word that is owned is below 2^32.
    ghost in_range: { (s : Self) (x : Self.W) (a : ℕ → Bool) → word_reach x ≤ extent s → word x a < 2 ^ 32 };
}
