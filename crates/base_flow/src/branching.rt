//! Where branches lead.

ghost use Rattle.std.specs.Prelude.{◌≡◌, ◌<◌, ◌^◌};
ghost use Rattle.machines.specs.Prelude.{branch_target, behind};

use reg_map::signed_immediate;

/// The target of the conditional branch at `at`, by its field in words.
pub fn short_target(field: u16, absolute: bool, at: u32) -> u32
    requires { field < 2 ^ 14 }
    ensures { result ≡ branch_target 14 field absolute at }
{
    let offset = signed_immediate(4 * field);
    if absolute {
        offset
    } else {
        at.wrapping_add(offset)
    }
}

/// The target of the unconditional branch at `at`, by its field in words.
pub fn target(field: u32, absolute: bool, at: u32) -> u32
    requires { field < 2 ^ 24 }
    ensures { result ≡ branch_target 24 field absolute at }
{
    let forward = 4 * field;
    let offset = if forward < 0x0200_0000 {
        forward
    } else {
        forward + 0xFC00_0000
    };
    if absolute {
        offset
    } else {
        at.wrapping_add(offset)
    }
}

/// The address behind the instruction at `at`.
pub fn next_address(at: u32) -> u32
    ensures { result ≡ behind at }
{
    at.wrapping_add(4)
}
