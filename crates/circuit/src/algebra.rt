//! Gates as an algebra of words.

ghost use Rattle.std.specs.Prelude.{true, List, length};
ghost use Rattle.circuit.specs.Literals.{lit_truth, lit_reach, word_value, word_reach_below};
ghost use Rattle.circuit.specs.Nodes.{AllAgree, IsInput, free_count};
ghost use Rattle.circuit.specs.WordsMade.{gates_operations};
ghost use Rattle.circuit.specs.GatesRange.{word_below};
ghost use Rattle.circuit.specs.declared.nodes.Node.{Node as Kept};

use crate::gates::Gates;
use crate::literals::Lit;
use crate::nodes::{FreeWord, Node};
use crate::wiring::{Turn, byte_word, complement_of, joined, literal_word};
use crate::words::BitGate;
use word_kit::{Alg, NoMemory};

/// Words are 32 literals, lowest bit first. A gate that is there already isn't made again. A value is owned where each of
/// its variables is one of the circuit, and the assignments that are admitted are those that fit every gate and give each
/// product half and division its values.
impl Alg for Gates {
    type W = [Lit; 32];

    type B = Lit;

    ghost word = { λ w v. word_value 32 w v };

    ghost truth = { λ b v. lit_truth b v };

    ghost extent = { λ s. length s.nodes.keys };

    ghost word_reach = { λ w. word_reach_below 32 w };

    ghost flag_reach = { λ b. lit_reach b };

    ghost admits = { λ s v. AllAgree s.nodes.keys v };

    ghost inputs = { λ s k. IsInput s.nodes.keys k };

    ghost opaque = { λ s. free_count s.nodes.keys };

    ghost takes_memory = { true };

    ghost Held = { List Kept };

    ghost held = { λ s. s.nodes.keys };

    ghost ops = { gates_operations ⟦<Node as PartialEq>⟧.eq };

    fn lit(&mut self, value: u32) -> [Lit; 32] {
        literal_word(value)
    }

    fn flag(&mut self, value: bool) -> Lit {
        Lit::Const(value)
    }

    fn bit(&mut self, x: [Lit; 32], place: u8) -> Lit {
        x[place as usize]
    }

    fn put_bit(&mut self, x: [Lit; 32], place: u8, b: Lit) -> [Lit; 32] {
        let mut out = x;
        out[place as usize] = b;
        out
    }

    fn not(&mut self, x: [Lit; 32]) -> [Lit; 32] {
        complement_of(x)
    }

    fn flip(&mut self, b: Lit) -> Lit {
        b.flip()
    }

    fn byte(&mut self, x: [Lit; 32], k: u8) -> [Lit; 32] {
        byte_word(x, k)
    }

    fn join(&mut self, b3: [Lit; 32], b2: [Lit; 32], b1: [Lit; 32], b0: [Lit; 32]) -> [Lit; 32] {
        joined(b3, b2, b1, b0)
    }

    fn add(
        &mut self,
        x: [Lit; 32],
        y: [Lit; 32],
        carry: Lit,
    ) -> Result<([Lit; 32], Lit), NoMemory> {
        let (word, over) = self.sum(x, y, carry)?;
        Ok((word, over))
    }

    fn less(&mut self, x: [Lit; 32], y: [Lit; 32], signed: bool) -> Result<Lit, NoMemory> {
        self.below(x, y, signed)
    }

    fn equal(&mut self, x: [Lit; 32], y: [Lit; 32]) -> Result<Lit, NoMemory> {
        self.equality(x, y)
    }

    fn pick(&mut self, b: Lit, x: [Lit; 32], y: [Lit; 32]) -> Result<[Lit; 32], NoMemory> {
        let word = self.bitwise(BitGate::Choice(b), x, y)?;
        Ok(word)
    }

    fn and(&mut self, x: [Lit; 32], y: [Lit; 32]) -> Result<[Lit; 32], NoMemory> {
        let word = self.bitwise(BitGate::Both, x, y)?;
        Ok(word)
    }

    fn or(&mut self, x: [Lit; 32], y: [Lit; 32]) -> Result<[Lit; 32], NoMemory> {
        let word = self.bitwise(BitGate::Either, x, y)?;
        Ok(word)
    }

    fn xor(&mut self, x: [Lit; 32], y: [Lit; 32]) -> Result<[Lit; 32], NoMemory> {
        let word = self.bitwise(BitGate::Differ, x, y)?;
        Ok(word)
    }

    fn shift_left(&mut self, x: [Lit; 32], by: [Lit; 32]) -> Result<[Lit; 32], NoMemory> {
        self.shift(Turn::Left, x, by)
    }

    fn shift_right(&mut self, x: [Lit; 32], by: [Lit; 32]) -> Result<[Lit; 32], NoMemory> {
        self.shift(Turn::Right, x, by)
    }

    fn shift_arith(&mut self, x: [Lit; 32], by: [Lit; 32]) -> Result<[Lit; 32], NoMemory> {
        self.shift(Turn::Arith, x, by)
    }

    fn rotate(&mut self, x: [Lit; 32], by: [Lit; 32]) -> Result<[Lit; 32], NoMemory> {
        self.shift(Turn::Rotate, x, by)
    }

    fn mul_low(&mut self, x: [Lit; 32], y: [Lit; 32]) -> Result<[Lit; 32], NoMemory> {
        let product = self.low_product(x, y);
        let word = self.free_word(product)?;
        Ok(word)
    }

    fn mul_high(
        &mut self,
        x: [Lit; 32],
        y: [Lit; 32],
        signed: bool,
    ) -> Result<[Lit; 32], NoMemory> {
        let product = self.high_product(x, y, signed);
        let word = self.free_word(product)?;
        Ok(word)
    }

    fn div(
        &mut self,
        high: [Lit; 32],
        low: [Lit; 32],
        by: [Lit; 32],
        signed: bool,
    ) -> Result<([Lit; 32], [Lit; 32], Lit), NoMemory> {
        let quotient = self.free_word(FreeWord::Quotient(signed, high, low, by))?;
        let remainder = self.free_word(FreeWord::Remainder(signed, high, low, by))?;
        let faults = self.variable(Node::Free(FreeWord::DivideFaults(signed, high, low, by), 0))?;
        Ok((quotient, remainder, faults))
    }

    fn both(&mut self, b: Lit, c: Lit) -> Result<Lit, NoMemory> {
        self.and_gate(b, c)
    }

    fn either(&mut self, b: Lit, c: Lit) -> Result<Lit, NoMemory> {
        self.or_gate(b, c)
    }

    fn differ(&mut self, b: Lit, c: Lit) -> Result<Lit, NoMemory> {
        self.xor_gate(b, c)
    }

    ghost in_range = { λ s x v h. word_below x v };
}
