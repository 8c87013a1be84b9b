//! The places of operands.

ghost use Rattle.std.specs.Prelude.{◌≡◌, ◌≤◌, ◌<◌, length};
ghost use Rattle.rule_lines.specs.Lines.{nth_slot as slot_place, register_place as place_of, number_for as number_of, address_for, home_source as home, home_results as results_at, own_source as own, IsPlaced, HasPlace};
ghost use Rattle.ia_codec.specs.declared.op.Operand.TheVariants.{Abs};

use ia_codec::Operand;
use place_circuits::{Address, Number, Results, Source};
use rule_body::Hole;

// The n-th of the parameters that stand in slots.
fn nth_slot(slots: &[bool], n: u8) -> u8
    requires few { length slots.now ≤ 6 }
    ensures place { result ≡ slot_place slots.now n }
    ensures most { result ≤ 6 }
{
    let mut left = n;
    for k in 0..slots.len() {
        if slots[k] {
            if left == 0 {
                return k as u8;
            }
            left -= 1;
        }
    }
    slots.len() as u8
}

/// The place of a register.
pub fn register_place(slots: &[bool], register: u8) -> u8
    requires few { length slots.now ≤ 6 }
    ensures place { result ≡ place_of slots.now register }
    ensures most { result < 16 }
{
    match register {
        0 => 13,
        1 => 14,
        2 => 15,
        3 => nth_slot(slots, 0),
        6 => nth_slot(slots, 1),
        _ => nth_slot(slots, 2),
    }
}

/// A number that is written, or that the constant of a word fills.
pub fn number(hole: Option<(Hole, u8)>, written: u32) -> Number
    requires few { HasPlace hole }
    ensures { result ≡ number_of hole written }
{
    match hole {
        None => Number::Written(written),
        Some((hole, word)) => Number::Filled(hole, 20 + word),
    }
}

/// The sum of registers that an operand is.
pub fn address(slots: &[bool], hole: Option<(Hole, u8)>, operand: Operand) -> Address
    requires few { length slots.now ≤ 6 }
    requires hole { HasPlace hole }
    ensures { result ≡ address_for slots.now hole operand }
{
    match operand {
        Operand::Base(base, displacement) => Address {
            base: register_place(slots, base),
            index: None,
            displacement: number(hole, displacement),
        },
        Operand::Pair(base, index, shift, displacement) => Address {
            base: register_place(slots, base),
            index: Some((register_place(slots, index), shift)),
            displacement: number(hole, displacement),
        },
        _ => Address {
            base: 0,
            index: None,
            displacement: Number::Written(0),
        },
    }
}

/// What an operand in a register or a home reads.
pub fn own_source(slots: &[bool], size: u8, operand: Operand) -> Source
    requires few { length slots.now ≤ 6 }
    requires operand { IsPlaced slots.now size operand }
    ensures { result ≡ own slots.now size operand }
{
    match operand {
        Operand::Reg(register) => Source::Place(register_place(slots, register)),
        Operand::Abs(offset) if offset < 128 => Source::Lowest((offset / 4 - 1) as u8, size),
        Operand::Abs(offset) => Source::Bytes((offset - 96) as u8, size),
        _ => Source::Zero,
    }
}

/// Where a result goes that so many bytes of the home page get.
pub fn home_results(slots: &[bool], size: u8, offset: u32) -> Results
    requires few { length slots.now ≤ 6 }
    requires operand { IsPlaced slots.now size (Abs offset) }
    ensures { result ≡ results_at size offset }
{
    if offset < 128 {
        Results::Lowest((offset / 4 - 1) as u8, size)
    } else {
        Results::Bytes((offset - 96) as u8, size)
    }
}
