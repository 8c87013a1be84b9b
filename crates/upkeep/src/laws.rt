//! Laws of a translation's machines and memory. Each is the contract of a function that does nothing.

ghost use Rattle.upkeep.specs.Loaded.{LoadedHaveBytes};
ghost use Rattle.upkeep.specs.Written.{WrittenIsInPlace, WrittenHasBytes, WrittenStarts};
ghost use Rattle.upkeep.specs.Steps.{HostKeepsUnwritten, ContextKeepsUnwritten, GuestsStayGuests, AllLiveIsEnough};

/// No step of the host, with any rights, changes a byte that may not be written, whatever the answer to
/// its call.
pub fn host_keeps_unwritten()
    ensures step { HostKeepsUnwritten }
    ensures context { ContextKeepsUnwritten }
{}

/// Each step of a program's guest leaves every location a value that it can have, and its segments bytes, whatever the answer to
/// its call.
pub fn guests_stay_guests()
    ensures { GuestsStayGuests }
{}

/// Where every location is live, what isn't live makes no difference.
pub fn all_live_is_enough()
    ensures { AllLiveIsEnough }
{}

/// The segments of a program that a file of bytes lays out are made of bytes.
pub fn loaded_has_bytes()
    ensures { LoadedHaveBytes }
{}

/// A written file has the memory of its source and, apart from it, a home page that may be read and
/// written; the table, which can be read and not written, and the code stand where they are written, and it
/// runs this code.
pub fn has_home()
    ensures { WrittenIsInPlace }
{}

/// All that is written is bytes. At the start, whatever the processor chooses, every location's value is
/// at its home, the source's segments have the source's bytes, and the host stands where the table leads at
/// the first word.
pub fn starts()
    ensures bytes { WrittenHasBytes }
    ensures start { WrittenStarts }
{}
