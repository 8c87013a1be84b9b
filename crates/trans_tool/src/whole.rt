//! A whole file, up to a limit.

ghost use Rattle.std.specs.Prelude.{◌≡◌, ◌<◌, ◌≤◌, ◌+◌, ◌^◌, Some, length, IsTrue, IfOk, IsErrOf};
ghost use Rattle.outside.specs.Files.{Stands, HasFileCause};
ghost use Rattle.trans_tool.specs.Whole.{IsLonger};

use outside::{FileFault, Files};

/// Why a file was not read whole.
#[derive(Clone, Copy, Debug, PartialEq, Eq)]
pub enum ReadFault {
    Failed,
    /// It has more bytes than the limit.
    TooLong,
    Memory,
}

/// Reads a whole file of at most `most` bytes.
pub fn read_whole<F: Files>(files: &mut F, name: &str, most: usize) -> Result<Vec<u8>, ReadFault>
    requires { most + 1 < 2 ^ 64 }
    ensures bytes { IfOk result (λ v. IsTrue (F.tells files.old) → F.held files.old name.now ≡ Some v.items) }
    ensures bound { IfOk result (λ v. length v.items ≤ most) }
    ensures long { IsErrOf result ReadFault.TooLong → IsTrue (F.tells files.old) → IsLonger most (F.held files.old name.now) }
    ensures stands { Stands (F.tells files.old) (F.tells files.new) (F.held files.old) (F.held files.new) }
    ensures cause { HasFileCause ReadFault.Failed (F.read_faults files.old) (F.read_faults files.new) (F.replace_faults files.old) (F.replace_faults files.new) name.now result }
{
    match files.read(name, most + 1) {
        Ok(bytes) if bytes.len() <= most => Ok(bytes),
        Ok(_) => Err(ReadFault::TooLong),
        Err(FileFault::Failed) => Err(ReadFault::Failed),
        Err(FileFault::Memory(_)) => Err(ReadFault::Memory),
    }
}
