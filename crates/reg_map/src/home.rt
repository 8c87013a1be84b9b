//! Offsets in the home page, where locations stand that no register of the host holds.

ghost use Rattle.std.specs.Prelude.{◌≡◌, ◌<◌};
ghost use Rattle.reg_map.specs.Home.{gpr_home as home_of, cr_home, HomesAreApart};

/// The offset of the home byte of CR field 0; field f follows f bytes later.
pub const CR_HOME: u32 = 136;

/// The offset of the home word of GPR `g`, in bytes.
pub fn gpr_home(g: u8) -> u32
    requires { g < 32 }
    ensures { result ≡ home_of g }
{
    4 * g as u32
}

/// The constant is what the definition says.
pub fn cr_has_its_home()
    ensures { CR_HOME ≡ cr_home 0 }
{}

/// Every home lies in the home page, and no two share a byte.
pub fn homes_are_apart()
    ensures { HomesAreApart }
{}
