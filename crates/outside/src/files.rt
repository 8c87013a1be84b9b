// Files as a program sees them.
ghost use Rattle.std.specs.Prelude.{◌≡◌, ◌≤◌, Bool, List, ℕ, Option, length, IsTrue, IfOk, OnOk};
ghost use Rattle.outside.specs.Files.{Reads, Stands, StandsBut, HasFileCause};

use thiserror::Error;
use word_kit::NoMemory;

/// Why a call on a file gave up: the outside failed, or there was no memory.
#[derive(Clone, Copy, Debug, PartialEq, Eq, Error)]
pub enum FileFault {
    #[error("the call on the file failed")]
    Failed,
    #[error("out of memory")]
    Memory(NoMemory),
}

/// Files under names. Each name has a count of its failed reads and one of its failed
/// replacements: none of them falls, and a call raises none but its own. So a fault under one name
/// is no excuse under another, nor a failed read one for a replacement.
pub trait Files {
    /// Whether the bytes under the names are told. What is told stays told.
    ghost tells: { Self → Bool };

    /// Where it tells, the bytes under a name, none where the name is absent.
    ghost held: { Self → List ℕ → Option (List ℕ) };

    /// How many reads under a name have failed.
    ghost read_faults: { Self → List ℕ → ℕ };

    /// How many replacements under a name have failed.
    ghost replace_faults: { Self → List ℕ → ℕ };

    /// The first `most` bytes of the file, or all where it is shorter. An absent name is a failure.
    /// Whatever it answers, the bytes under every name stand.
    fn read(&mut self, name: &str, most: usize) -> Result<Vec<u8>, FileFault>
        ensures bytes { IfOk result (λ v. IsTrue (tells self.old) → Reads (held self.old name.now) most v.items) }
        ensures bound { IfOk result (λ v. length v.items ≤ most) }
        ensures stands { Stands (tells self.old) (tells self.new) (held self.old) (held self.new) }
        ensures cause { HasFileCause FileFault.Failed (read_faults self.old) (read_faults self.new) (replace_faults self.old) (replace_faults self.new) name.now result };

    /// Puts these bytes under the name, in the place of what stood there. Where it is refused, what
    /// stands under that name is open. The bytes under every other name stand.
    fn replace(&mut self, name: &str, bytes: &[u8]) -> Result<(), FileFault>
        ensures bytes { OnOk result (IsTrue (tells self.old) → held self.new name.now ≡ Some bytes.now) }
        ensures stands { StandsBut name.now (tells self.old) (tells self.new) (held self.old) (held self.new) }
        ensures cause { HasFileCause FileFault.Failed (replace_faults self.old) (replace_faults self.new) (read_faults self.old) (read_faults self.new) name.now result };
}
