//! One line of a listing.

ghost use Rattle.std.specs.Prelude.{◌≡◌, ◌+◌, ◌*◌, ◌≤◌, [], ◌++◌, length};
ghost use Rattle.hex.specs.Hex.{encode_lower};
ghost use Rattle.outside.specs.Causes.{HasCause};
ghost use Rattle.outside.specs.Streams.{PutsAll};
ghost use Rattle.listing.specs.Lines.{line};

use outside::{Failed, Sink, put_all};
use std::marker::Model;

/// The most bytes of a line that is being built.
const ROOM: usize = 48;

// A line that is being built in place. Contracts see its bytes.
#[derive(Drop)]
struct Line {
    bytes: [u8; ROOM],
    len: usize,
}

impl Model for Line {
    ghost use Rattle.std.specs.Prelude.{◌≤◌, List, ℕ, take};

    ghost Value = { List ℕ };

    ghost view = { λ l. take l.len l.bytes };

    ghost invariant = { λ l. l.len ≤ 48 };
}

impl Line {
    fn empty() -> Line
        ensures { result ≡ [] }
    {
        Line {
            bytes: [0; ROOM],
            len: 0,
        }
    }

    fn as_slice(&self) -> &[u8]
        ensures { result.now ≡ self.now }
    {
        &self.bytes[..self.len]
    }

    fn push(&mut self, text: &[u8])
        requires { length self.old + length text.now ≤ 48 }
        ensures bytes { self.new ≡ self.old ++ text.now }
        ensures len { length self.new ≡ length self.old + length text.now }
    {
        let end = self.len + text.len();
        self.bytes[self.len..end].copy_from_slice(text);
        self.len = end;
    }

    // Appends two hexadecimal digits for each of the bytes.
    fn push_hex(&mut self, bytes: &[u8])
        requires { length self.old + 2 * length bytes.now ≤ 48 }
        ensures bytes { self.new ≡ self.old ++ encode_lower bytes.now }
        ensures len { length self.new ≡ length self.old + 2 * length bytes.now }
    {
        let end = self.len + 2 * bytes.len();
        hex::encode_to_slice(bytes, &mut self.bytes[self.len..end]).unwrap();
        self.len = end;
    }
}

/// Puts the line of the code at an address: the address and the code in hexadecimal, and the name.
#[tactic(auto, unfolding(crate::specs::Lines::line))]
pub fn put_line<S: Sink>(
    output: &mut S,
    address: u32,
    code: &[u8],
    name: &str,
) -> Result<(), Failed>
    requires code { length code.now ≤ 12 }
    requires name { length name.now ≤ 8 }
    ensures bytes { PutsAll (S.shown output.old) (S.shown output.new) result (line address code.now name.now) }
    ensures cause { HasCause (S.faults output.old) (S.faults output.new) result }
{
    let mut line = Line::empty();
    line.push_hex(&address.to_be_bytes());
    line.push(b" ");
    line.push_hex(code);
    line.push(b" ");
    line.push(name.as_bytes());
    line.push(b"\n");
    put_all(output, line.as_slice())
}
