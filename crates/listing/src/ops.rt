//! The listing of IA-32 code.

ghost use Rattle.std.specs.Prelude.{◌≡◌, ◌+◌, ◌^◌, ◌<◌, ◌≤◌, ℕ, List, Option, take, length};
ghost use Rattle.outside.specs.Causes.{HasCause};
ghost use Rattle.outside.specs.Streams.{PutsAll};
ghost use Rattle.ia_codec.specs.declared.op.Op.{Op};
ghost use Rattle.ia_codec.specs.Prelude.{IsReading};
ghost use Rattle.listing.specs.Lines.{line};
ghost use Rattle.listing.specs.Ops.{op_name, op_length, op_lines};

use crate::line::put_line;
use ia_codec::{decode, mnemonic};
use outside::{Failed, Sink};
use space::Segment;

// How many bytes the op has with which the bytes begin, and its name.
fn first(bytes: &[u8]) -> (usize, &'static str)
    requires { 0 < length bytes.now }
    ensures length { (read : List ℕ → Option (Op × ℕ)) → IsReading read → result.0 ≡ op_length (read bytes.now) }
    ensures name { (read : List ℕ → Option (Op × ℕ)) → IsReading read → result.1.now ≡ op_name (read bytes.now) }
    ensures some { 0 < result.0 }
    ensures few { result.0 ≤ 12 }
    ensures within { result.0 ≤ length bytes.now }
    ensures short { length result.1.now ≤ 8 }
{
    match decode(bytes) {
        Some((op, len)) => (len, mnemonic(&op)),
        None => (1, "bad"),
    }
}

/// Puts a line for each op, one behind another from the first byte on, and for each byte at which no
/// op stands.
pub fn list_ops<S: Sink>(code: &Segment, output: &mut S) -> Result<(), Failed>
    requires { code.now.at + length code.now.bytes ≤ 2 ^ 32 }
    ensures bytes { (read : List ℕ → Option (Op × ℕ)) → IsReading read
        → PutsAll (S.shown output.old) (S.shown output.new) result (op_lines read (length code.now.bytes) code.now.at code.now.bytes) }
    ensures cause { HasCause (S.faults output.old) (S.faults output.new) result }
{
    let bytes = code.bytes.as_slice();
    let mut place = 0;
    while place < bytes.len() {
        let rest = &bytes[place..];
        let (len, name) = first(rest);
        put_line(output, code.at + place as u32, &rest[..len], name)?;
        place += len;
    }
    Ok(())
}
