//! The command `list FILE`.

ghost use Rattle.trans_tool.specs.Seen.{seen_by, heard_by, FilesStand};
ghost use Rattle.trans_tool.specs.Listing.{EndsListing};

use crate::Cause;
use crate::loading::program_in;
use outside::{Failed, Files, Sink};
use std::alloc::Global;

/// Puts the listing of the program in a file to the output.
pub fn list<F: Files, O: Sink>(alloc: Global, file: &str, files: &mut F, output: &mut O) -> Cause
    ensures ends { EndsListing (seen_by F.tells F.held F.read_faults F.replace_faults files.old files.new)
        (heard_by O.shown O.faults output.old output.new) file.now result }
    ensures stands { FilesStand (seen_by F.tells F.held F.read_faults F.replace_faults files.old files.new) }
{
    let program = match program_in(alloc, files, file) {
        Ok(program) => program,
        Err(cause) => return cause,
    };
    match listing::list(&program, output) {
        Ok(()) => Cause::Done,
        Err(Failed) => Cause::OutFault,
    }
}
