//! The listing of a program.

ghost use Rattle.std.specs.Prelude.{ℕ, List, Option};
ghost use Rattle.outside.specs.Causes.{HasCause};
ghost use Rattle.outside.specs.Streams.{PutsAll};
ghost use Rattle.ppc_isa.specs.declared.instr.Instr.{Instr};
ghost use Rattle.ppc_isa.specs.Legal.{ReadsWords};
ghost use Rattle.ia_codec.specs.declared.op.Op.{Op};
ghost use Rattle.ia_codec.specs.Prelude.{IsReading as ReadsOps};
ghost use Rattle.listing.specs.Listing.{HasCode, text_of};

use crate::ops::list_ops;
use crate::words::list_words;
use outside::{Failed, Sink};
use space::{Kind, Program};

/// Puts the listing of a program, a line at a time: for PowerPC one of each code word, for IA-32 one of each
/// op of the code, or of a byte at which none stands. It takes no memory.
///
/// It puts all lines, or where the sink fails a prefix of them.
pub fn list<S: Sink>(program: &Program, output: &mut S) -> Result<(), Failed>
    requires { HasCode program.now }
    ensures bytes { (words : ℕ → Option Instr) (ops : List ℕ → Option (Op × ℕ)) → ReadsWords words → ReadsOps ops
        → PutsAll (S.shown output.old) (S.shown output.new) result (text_of words ops program.now) }
    ensures cause { HasCause (S.faults output.old) (S.faults output.new) result }
{
    let code = &program.segments.as_slice()[program.code];
    match program.kind {
        Kind::PowerPc => list_words(code, output),
        Kind::Ia32 => list_ops(code, output),
    }
}
