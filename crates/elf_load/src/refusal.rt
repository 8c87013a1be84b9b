//! The rules that an ELF file may break, and why a file is not loaded.
ghost use Rattle.std.specs.Prelude.{◌≡◌};
ghost use Rattle.elf_load.specs.Rules.{number_of};

use thiserror::Error;
use word_kit::NoMemory;

/// A rule that a file breaks. They are tried in this order, each over the whole file.
#[derive(Clone, Copy, Debug, PartialEq, Eq)]
pub enum ElfRefusal {
    /// The file is shorter than an ELF header.
    Short,
    /// The file begins with another magic number.
    Magic,
    /// The file is not of the 32-bit class.
    Class,
    /// The byte order is not that of the machine.
    Order,
    /// The version of the format is not 1.
    Version,
    /// The file is not an executable.
    Type,
    /// The file is for another machine.
    Machine,
    /// A program header has not 32 bytes.
    HeaderSize,
    /// There are no program headers, or too many.
    HeaderCount,
    /// The table of program headers does not lie in the file.
    TableOutside,
    /// The program is linked when it starts.
    Dynamic,
    /// The bytes of a segment do not lie in the file.
    SegmentOutside,
    /// A segment has more bytes in the file than in memory.
    SizesCrossed,
    /// A segment ends above the addresses of user programs.
    HighSegment,
    /// Two segments share an address.
    Overlap,
    /// The segments take too much memory.
    TooMuchMemory,
    /// There is no code segment, or more than one.
    CodeCount,
    /// The code segment is too long.
    CodeLong,
    /// The program starts elsewhere than at a word of the code segment.
    Entry,
    /// A segment lies where the stack is.
    StackOverlap,
    /// No place is left for what a translation adds.
    NoRoom,
}

impl ElfRefusal {
    /// The number of the rule, from 1 on, in the order in which rules are tried.
    pub fn number(self) -> u8
        ensures { result ≡ number_of self }
    {
        match self {
            ElfRefusal::Short => 1,
            ElfRefusal::Magic => 2,
            ElfRefusal::Class => 3,
            ElfRefusal::Order => 4,
            ElfRefusal::Version => 5,
            ElfRefusal::Type => 6,
            ElfRefusal::Machine => 7,
            ElfRefusal::HeaderSize => 8,
            ElfRefusal::HeaderCount => 9,
            ElfRefusal::TableOutside => 10,
            ElfRefusal::Dynamic => 11,
            ElfRefusal::SegmentOutside => 12,
            ElfRefusal::SizesCrossed => 13,
            ElfRefusal::HighSegment => 14,
            ElfRefusal::Overlap => 15,
            ElfRefusal::TooMuchMemory => 16,
            ElfRefusal::CodeCount => 17,
            ElfRefusal::CodeLong => 18,
            ElfRefusal::Entry => 19,
            ElfRefusal::StackOverlap => 20,
            ElfRefusal::NoRoom => 21,
        }
    }
}

/// Why a file is not loaded.
#[derive(Debug, Drop, Error)]
pub enum LoadFault {
    /// The first rule that the file breaks, and the offset in the file of the field or program
    /// header that breaks it.
    #[error("the file breaks a rule of its format at offset {1}")]
    Refused(ElfRefusal, u32),
    /// There was no memory for the program.
    #[error("out of memory")]
    Memory(NoMemory),
}
