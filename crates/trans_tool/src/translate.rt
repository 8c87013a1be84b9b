//! The command `translate IN OUT`.

ghost use Rattle.std.specs.Prelude.{◌≡◌, ◌≤◌, ℕ, MatchResult, length};
ghost use Rattle.machines.specs.Prelude.{PowerPc};
ghost use Rattle.elf_load.specs.Prelude.{IsCause};
ghost use Rattle.trans_tool.specs.Seen.{seen_by};
ghost use Rattle.trans_tool.specs.Translate.{Ends, IsAnswer};

use crate::Cause;
use crate::whole::{ReadFault, read_whole};
use crate::words::Translate;
use elf_load::{LoadFault, load};
use outside::{FileFault, Files};
use rule_audit::Audited;
use space::Kind;
use std::alloc::Global;
use translate_core::Output;

/// The most bytes of a file that is translated: 16 MiB.
const MOST: usize = 0x100_0000;

/// Translates the file that the command names first into the one that it names second.
pub fn translate<F: Files>(alloc: Global, command: &Translate<'_>, files: &mut F) -> Cause
    ensures { Ends (seen_by F.tells F.held F.read_faults F.replace_faults files.old files.new)
        command.now.from.now command.now.to.now result }
{
    let bytes = match read_whole(files, command.from, MOST) {
        Ok(bytes) => bytes,
        Err(ReadFault::Failed) => return Cause::FileRead(0),
        Err(ReadFault::TooLong) => return Cause::TooLong(0),
        Err(ReadFault::Memory) => return Cause::Memory,
    };
    let output = match translated(alloc, &bytes) {
        Ok(output) => output,
        Err(LoadFault::Refused(rule, offset)) => return Cause::BadElf(rule, offset),
        Err(LoadFault::Memory(_)) => return Cause::Memory,
    };
    match files.replace(command.to, output.file.as_slice()) {
        Ok(()) => Cause::Done,
        Err(FileFault::Failed) => Cause::FileWrite(1),
        Err(FileFault::Memory(_)) => Cause::Memory,
    }
}

// The translation of a PowerPC file.
fn translated(alloc: Global, bytes: &[u8]) -> Result<Output, LoadFault>
    requires { length bytes.now ≤ 0x1000000 }
    ensures { MatchResult result (IsAnswer bytes.now) (IsCause PowerPc bytes.now) }
{
    let program = load(alloc, bytes, Kind::PowerPc)?;
    match translate_core::translate(alloc, &program, &Audited::none(alloc)) {
        Ok(output) => Ok(output),
        Err(error) => Err(LoadFault::Memory(error)),
    }
}
