//! The top call: what the program does with its words.

ghost use Rattle.std.specs.Prelude.{◌≡◌, ◌≢◌, ◌<◌, ◌≤◌, ◌⊎◌, List, Option, ℕ, map, string_bytes};
ghost use Rattle.outside.specs.Causes.{Rose};
ghost use Rattle.trans_tool.specs.Lines.{code_of};
ghost use Rattle.runner.specs.Prelude.{Bytes, streams_by, Told};
ghost use Rattle.machines.specs.Prelude.{ReadsWords, Fetched, ReadsOps, Instr};
ghost use Rattle.trans_tool.specs.Seen.{seen_by};
ghost use Rattle.trans_tool.specs.Top.{Comes, Runs};
ghost use Rattle.trans_tool.specs.Due.{IsDue, IsDueListing, IsDueRun, IsUnhindered, IsUnhinderedListing, IsUnhinderedRun};
ghost use Rattle.trans_tool.specs.Words.{IsUsage, Spells, SpellsList, SpellsRun};

use crate::cause::report;
use crate::list::list;
use crate::run::run as run_file;
use crate::translate::translate;
use crate::words::{Command, parse};
use crate::{Cause, Status};
use outside::{Files, Sink, Source};
use std::alloc::Global;

/// Runs the tool with these words, those behind the program's name, over the outside that is handed in.
pub fn top<F: Files, I: Source, O: Sink, E: Sink>(
    alloc: Global,
    words: &[String],
    files: &mut F,
    input: &mut I,
    output: &mut O,
    errors: &mut E,
) -> Status
    ensures code { result.code ≡ code_of result.cause }

    // The cause that came, by what it says of the files and the output, and its line; or ErrFault in its place.
    ensures runs { Runs (map string_bytes words.now) (seen_by F.tells F.held F.read_faults F.replace_faults files.old files.new)
        (streams_by I.left I.faults O.shown O.faults E.shown E.faults input.old output.old errors.old)
        (streams_by I.left I.faults O.shown O.faults E.shown E.faults input.new output.new errors.new) result.cause }

    // Usage exactly where the words spell no command; then no file is touched.
    ensures usage { result.cause ≡ Cause.Usage → IsUsage (map string_bytes words.now) }
    ensures usage_only { IsUsage (map string_bytes words.now)
        → ((result.cause ≡ Cause.Usage) ⊎ (result.cause ≡ Cause.ErrFault)) × (files.new ≡ files.old) }

    // A fault comes only where the count of the call that it blames rose.
    ensures read_fault { (file : ℕ) → result.cause ≡ Cause.FileRead file → (file ≡ 0)
        × ((from to : List ℕ) → Spells (map string_bytes words.now) from to → F.read_faults files.old from < F.read_faults files.new from)
        × ((name : List ℕ) → SpellsList (map string_bytes words.now) name → F.read_faults files.old name < F.read_faults files.new name)
        × ((name : List ℕ) (steps : ℕ) → SpellsRun (map string_bytes words.now) name steps → F.read_faults files.old name < F.read_faults files.new name) }
    ensures write_fault { (file : ℕ) → result.cause ≡ Cause.FileWrite file → (file ≡ 1)
        × ((from to : List ℕ) → Spells (map string_bytes words.now) from to → F.replace_faults files.old to < F.replace_faults files.new to) }
    ensures out_fault { result.cause ≡ Cause.OutFault → Rose (O.faults output.old) (O.faults output.new) }
    ensures err_fault { result.cause ≡ Cause.ErrFault → Rose (E.faults errors.old) (E.faults errors.new) }

    // A run alone takes from the input, and it and a listing alone put to the output.
    ensures input_stands { ((name : List ℕ) (steps : ℕ) → SpellsRun (map string_bytes words.now) name steps → ⊥) → input.new ≡ input.old }
    ensures output_stands { ((name : List ℕ) → SpellsList (map string_bytes words.now) name → ⊥)
        → ((name : List ℕ) (steps : ℕ) → SpellsRun (map string_bytes words.now) name steps → ⊥) → output.new ≡ output.old }

    // With no count risen the cause is one that the file's bytes are due to have, Done among them, or memory ran out. No
    // bytes are due to have two ([`one_due`]).
    ensures due { (from to bytes : List ℕ) → IsUnhindered (map string_bytes words.now)
        (seen_by F.tells F.held F.read_faults F.replace_faults files.old files.new)
        (streams_by I.left I.faults O.shown O.faults E.shown E.faults input.old output.old errors.old)
        (streams_by I.left I.faults O.shown O.faults E.shown E.faults input.new output.new errors.new) from to bytes
        → IsDue bytes result.cause ⊎ (result.cause ≡ Cause.Memory) }
    ensures due_listing { (name bytes : List ℕ) → IsUnhinderedListing (map string_bytes words.now)
        (seen_by F.tells F.held F.read_faults F.replace_faults files.old files.new)
        (streams_by I.left I.faults O.shown O.faults E.shown E.faults input.old output.old errors.old)
        (streams_by I.left I.faults O.shown O.faults E.shown E.faults input.new output.new errors.new) name bytes
        → IsDueListing bytes result.cause ⊎ (result.cause ≡ Cause.Memory) }
    ensures due_run { (name bytes : List ℕ) (steps : ℕ) (before : Bytes) (words_read : ℕ → Option Instr) (ops_read : List ℕ → Option Fetched)
        → ReadsWords words_read → ReadsOps ops_read → IsUnhinderedRun (map string_bytes words.now)
        (seen_by F.tells F.held F.read_faults F.replace_faults files.old files.new)
        (streams_by I.left I.faults O.shown O.faults E.shown E.faults input.old output.old errors.old)
        (streams_by I.left I.faults O.shown O.faults E.shown E.faults input.new output.new errors.new) name steps bytes
        → Told (streams_by I.left I.faults O.shown O.faults E.shown E.faults input.old output.old errors.old) before
        → IsDueRun words_read ops_read bytes steps before result.cause ⊎ (result.cause ≡ Cause.Memory) }
{
    let ended = run(alloc, words, files, input, output, errors);
    let cause = report(alloc, errors, ended);
    Status {
        code: cause.code(),
        cause,
    }
}

// Runs the command that the words spell, and says why it ended.
fn run<F: Files, I: Source, O: Sink, E: Sink>(
    alloc: Global,
    words: &[String],
    files: &mut F,
    input: &mut I,
    output: &mut O,
    errors: &mut E,
) -> Cause
    ensures comes { Comes (map string_bytes words.now) (seen_by F.tells F.held F.read_faults F.replace_faults files.old files.new)
        (streams_by I.left I.faults O.shown O.faults E.shown E.faults input.old output.old errors.old)
        (streams_by I.left I.faults O.shown O.faults E.shown E.faults input.new output.new errors.new) result }
    ensures untouched { IsUsage (map string_bytes words.now) → files.new ≡ files.old }
    ensures untaken { ((name : List ℕ) (steps : ℕ) → SpellsRun (map string_bytes words.now) name steps → ⊥) → input.new ≡ input.old }
    ensures unput { ((name : List ℕ) → SpellsList (map string_bytes words.now) name → ⊥)
        → ((name : List ℕ) (steps : ℕ) → SpellsRun (map string_bytes words.now) name steps → ⊥) → output.new ≡ output.old }
    ensures not_told { result ≢ Cause.ErrFault }
    ensures later { E.faults errors.old ≤ E.faults errors.new }
{
    match parse(words) {
        Some(Command::Translate(named)) => translate(alloc, &named, files),
        Some(Command::List(file)) => list(alloc, file, files, output),
        Some(Command::Run(named)) => run_file(alloc, &named, files, input, output, errors),
        None => Cause::Usage,
    }
}
