//! What the definitions of the written file say of the program that it lays out.
ghost use Rattle.std.specs.Prelude.{◌≡◌, ℕ, ◌<◌, ◌^◌, List, length};
ghost use Rattle.space.specs.declared.program.Kind.TheVariants.{Ia32};
ghost use Rattle.elf_load.specs.Prelude.{IsProgramOf, stack};
ghost use Rattle.elf_emit.specs.File.{FileSegment, IsLeastOffset, elf_file, offset_of};
ghost use Rattle.elf_emit.specs.Loaded.{AreLoadable, program_of};
ghost use Rattle.elf_emit.specs.Translation.{kept};

/// A file of segments that can be loaded is loaded: no rule refuses it, and its program has these segments.
pub fn written_files_load()
    ensures { (entry : ℕ) (segments : List FileSegment) (code : ℕ) → entry < 2 ^ 32 → AreLoadable segments code
        → IsProgramOf Ia32 (elf_file entry segments) (program_of entry segments code) }
{}

/// The bytes of a segment stand at the least offset behind what stands before them that equals the segment's address
/// modulo 4096.
pub fn offsets_are_least()
    ensures { (s : FileSegment) (end : ℕ) → 0 < length s.bytes → IsLeastOffset s end (offset_of s end) }
{}

/// The file has no byte of the stack.
pub fn stack_has_no_bytes()
    ensures { kept stack ≡ 0 }
{}
