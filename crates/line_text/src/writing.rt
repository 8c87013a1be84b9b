//! Numbers at the end of a text.

ghost use Rattle.std.specs.Prelude.{◌≡◌, ◌≤◌, ◌++◌, length, OnOk, decimal};
ghost use Rattle.hex.specs.Hex.{encode_lower};

use std::alloc::AllocError;

/// Appends the number in decimal.
pub fn put_decimal(out: &mut Vec<u8>, number: u64) -> Result<(), AllocError>
    ensures { OnOk result (out.new.items ≡ out.old.items ++ decimal number) }
{
    if number < 10 {
        out.push(b'0' + number as u8)?;
        return Ok(());
    }
    put_decimal(out, number / 10)?;
    out.push(b'0' + (number % 10) as u8)?;
    Ok(())
}

/// Appends the bytes, of which there are at most twelve, in hexadecimal, two digits each.
pub fn put_hexadecimal(out: &mut Vec<u8>, bytes: &[u8]) -> Result<(), AllocError>
    requires { length bytes.now ≤ 12 }
    ensures { OnOk result (out.new.items ≡ out.old.items ++ encode_lower bytes.now) }
{
    let mut digits = [0; 24];
    let len = 2 * bytes.len();
    hex::encode_to_slice(bytes, &mut digits[..len]).unwrap();
    out.extend_from_slice(&digits[..len])?;
    Ok(())
}
