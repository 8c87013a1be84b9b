//! Places of the general registers.

ghost use Rattle.std.specs.Prelude.{◌≡◌, ◌≢◌, ◌<◌, ◌*◌};
ghost use Rattle.reg_map.specs.Place.{IsMap, place};

use crate::home::gpr_home;
use crate::registers::{EBX, EDI, ESI};
use ia_codec::Operand;
use ppc_isa::Map;

/// The place of GPR `g` under the map: the cache register that holds it, else its home word, as an
/// offset in the home page.
pub fn loc(map: &Map, g: u8) -> Operand
    requires map { IsMap map.now }
    requires g { g < 32 }
    ensures place { result ≡ place map.now g }

    // A slot that holds the GPR is its place, whichever slots stand before it.
    ensures in_ebx { map.now.ebx ≡ Some g → result ≡ Operand.Reg 3 }
    ensures in_esi { map.now.esi ≡ Some g → result ≡ Operand.Reg 6 }
    ensures in_edi { map.now.edi ≡ Some g → result ≡ Operand.Reg 7 }
    ensures at_home { map.now.ebx ≢ Some g → map.now.esi ≢ Some g → map.now.edi ≢ Some g → result ≡ Operand.Abs (4 * g) }
{
    if map.ebx == Some(g) {
        Operand::Reg(EBX)
    } else if map.esi == Some(g) {
        Operand::Reg(ESI)
    } else if map.edi == Some(g) {
        Operand::Reg(EDI)
    } else {
        Operand::Abs(gpr_home(g))
    }
}
