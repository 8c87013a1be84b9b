//! The program in a file that is listed or run.

ghost use Rattle.std.specs.Prelude.{◌≡◌, ⊤, IfOk};
ghost use Rattle.std.specs.Result.{IfErr};
ghost use Rattle.elf_load.specs.Prelude.{HasLowCode};
ghost use Rattle.trans_tool.specs.Seen.{seen_by, FilesStand};
ghost use Rattle.trans_tool.specs.Listing.{EndsUnread, IsLoaded, kind_of};

use crate::Cause;
use crate::whole::{ReadFault, read_whole};
use elf_load::{LoadFault, load};
use outside::Files;
use space::{Kind, Program};
use std::alloc::Global;

/// The most bytes of a file that is listed or run: 256 MiB.
const MOST: usize = 0x1000_0000;

// The machine that a file is for, as its byte 5 says.
fn file_kind(bytes: &[u8]) -> Kind
    ensures { result ≡ kind_of bytes.now }
{
    match bytes.get(5) {
        Some(1) => Kind::Ia32,
        _ => Kind::PowerPc,
    }
}

/// The program in a file, or why there is none. The file's bytes are let go.
pub fn program_in<F: Files>(alloc: Global, files: &mut F, file: &str) -> Result<Program, Cause>
    ensures loaded { IfOk result (λ program. IsLoaded (seen_by F.tells F.held F.read_faults F.replace_faults files.old files.new) file.now program) }
    ensures code { IfOk result (λ program. HasLowCode program) }
    ensures unread { IfErr result (λ cause. EndsUnread (seen_by F.tells F.held F.read_faults F.replace_faults files.old files.new) file.now ⊤ cause) }
    ensures stands { FilesStand (seen_by F.tells F.held F.read_faults F.replace_faults files.old files.new) }
{
    let bytes = match read_whole(files, file, MOST) {
        Ok(bytes) => bytes,
        Err(ReadFault::Failed) => return Err(Cause::FileRead(0)),
        Err(ReadFault::TooLong) => return Err(Cause::TooLong(0)),
        Err(ReadFault::Memory) => return Err(Cause::Memory),
    };
    match load(alloc, &bytes, file_kind(&bytes)) {
        Ok(program) => Ok(program),
        Err(LoadFault::Refused(rule, offset)) => Err(Cause::BadElf(rule, offset)),
        Err(LoadFault::Memory(_)) => Err(Cause::Memory),
    }
}
