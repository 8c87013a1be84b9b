//! The slots of parameters.

ghost use Rattle.std.specs.Prelude.{◌≡◌, ◌≤◌, ◌<◌, ℕ, IsTrue, MatchOption, length, option_map};
ghost use Rattle.reg_map.specs.Prelude.{slot_of};
ghost use Rattle.rule_body.specs.Prelude.{slot_count};
ghost use Rattle.rule_soundness.specs.Prelude.{slot_register};
ghost use Rattle.rule_match.specs.SlotNumbers.{ArePlaces, AreSlotNumbers, IsSlotNumber};

use ppc_isa::Map;

// The number of the slot that holds a GPR.
fn slot_number(map: &Map, gpr: u8) -> Option<u8>
    ensures { IsSlotNumber (slot_of map.now gpr) result }
{
    if map.ebx == Some(gpr) {
        Some(0)
    } else if map.esi == Some(gpr) {
        Some(1)
    } else if map.edi == Some(gpr) {
        Some(2)
    } else {
        None
    }
}

/// The number of the slot of each parameter that is to stand in one, in their order, and 0 past these; None where one stands
/// elsewhere than the rule has it.
pub fn slot_numbers(slots: &[bool], map: &Map, gprs: &[u8; 6]) -> Option<[u8; 3]>
    requires parameters { length slots.now ≤ 6 }
    requires few { slot_count slots.now ≤ 3 }
    ensures { MatchOption result (ArePlaces slots.now map.now gprs.now → ⊥) (λ numbers. AreSlotNumbers slots.now map.now gprs.now numbers) }
{
    let mut numbers = [0; 3];
    let mut count = 0;
    for place in 0..slots.len() {
        match (slots[place], slot_number(map, gprs[place])) {
            (false, None) => {}
            (true, Some(number)) => {
                numbers[count] = number;
                count += 1;
            }
            _ => return None,
        }
    }
    Some(numbers)
}
