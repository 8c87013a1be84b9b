//! The words of a command line.

ghost use Rattle.std.specs.Prelude.{◌≡◌, ◌≤◌, ◌↔◌, List, [], ◌∷◌, ℕ, map, string_bytes, MatchOption, IsTrue, codes};
ghost use Rattle.trans_tool.specs.Words.{IsName, Spells, SpellsList, SpellsRun, IsUsage, Spelled, steps_option};

use outside::decimal;

/// What `translate IN OUT` names.
#[derive(Clone, Copy)]
pub struct Translate<'a> {
    pub from: &'a str,
    pub to: &'a str,
}

/// What `run FILE --steps=N` names.
#[derive(Clone, Copy)]
pub struct Run<'a> {
    pub file: &'a str,
    /// The most steps that are made.
    pub steps: u64,
}

/// A command, with the files that it names.
#[derive(Clone, Copy)]
pub enum Command<'a> {
    Translate(Translate<'a>),
    List(&'a str),
    Run(Run<'a>),
}

/// The steps of a run that names none.
const USUAL_STEPS: u64 = 10_000_000;

/// The most steps that a run may name.
const MOST_STEPS: u64 = 1_000_000_000_000;

// A file name is nonempty and does not begin with two dashes.
fn is_name(word: &str) -> bool
    ensures { IsTrue result ↔ IsName word.now }
{
    !word.is_empty() && !word.starts_with("--")
}

// What the words name, if they are `translate IN OUT`.
fn translation(words: &[String]) -> Option<Translate<'_>>
    ensures { MatchOption result ((from to : List ℕ) → Spells (map string_bytes words.entry.now) from to → ⊥)
        (λ c. Spells (map string_bytes words.entry.now) c.from.now c.to.now) }
{
    match words {
        [command, from, to] => {
            let from = from.as_str();
            let to = to.as_str();
            if command.as_str() == "translate" && is_name(from) && is_name(to) {
                Some(Translate { from, to })
            } else {
                None
            }
        }
        _ => None,
    }
}

// The file that the words name, if they are `list FILE`.
fn file_to_list(words: &[String]) -> Option<&str>
    ensures { MatchOption result ((file : List ℕ) → SpellsList (map string_bytes words.entry.now) file → ⊥)
        (λ file. SpellsList (map string_bytes words.entry.now) file.now) }
{
    match words {
        [command, file] => {
            let file = file.as_str();
            if command.as_str() == "list" && is_name(file) {
                Some(file)
            } else {
                None
            }
        }
        _ => None,
    }
}

// The steps that a word names, if it is the option for them.
fn steps_of(word: &str) -> Option<u64>
    ensures { MatchOption result ((steps : ℕ) → steps ≤ 1000000000000 → word.now ≡ steps_option steps → ⊥)
        (λ steps. (steps ≤ 1000000000000) × (word.now ≡ steps_option steps)) }
{
    match word.strip_prefix("--steps=") {
        Some(number) => decimal(number.as_bytes(), MOST_STEPS),
        None => None,
    }
}

// The run of a file, if the first word names the command and the file has a name.
fn run_of<'a>(command: &str, file: &'a str, steps: u64) -> Option<Run<'a>>
    ensures { MatchOption result ((command.now ≡ codes "run") × IsName file.now → ⊥)
        (λ r. (command.now ≡ codes "run") × IsName file.now × (r.file.now ≡ file.now) × (r.steps ≡ steps)) }
{
    if command == "run" && is_name(file) {
        Some(Run { file, steps })
    } else {
        None
    }
}

// The run that the words name, if they are `run FILE`, with or without `--steps=N`.
fn program_to_run(words: &[String]) -> Option<Run<'_>>
    ensures { MatchOption result ((file : List ℕ) (steps : ℕ) → SpellsRun (map string_bytes words.entry.now) file steps → ⊥)
        (λ r. SpellsRun (map string_bytes words.entry.now) r.file.now r.steps) }
{
    match words {
        [command, file] => run_of(command.as_str(), file.as_str(), USUAL_STEPS),
        [command, first, second] => run_with_option(
            command.as_str(),
            first.as_str(),
            second.as_str(),
        ),
        _ => None,
    }
}

// The run that three words name, of which one is the option.
fn run_with_option<'a>(command: &str, first: &'a str, second: &'a str) -> Option<Run<'a>>
    ensures { MatchOption result ((file : List ℕ) (steps : ℕ) → SpellsRun (command.now ∷ first.now ∷ second.now ∷ []) file steps → ⊥)
        (λ r. SpellsRun (command.now ∷ first.now ∷ second.now ∷ []) r.file.now r.steps) }
{
    match steps_of(second) {
        Some(steps) => run_of(command, first, steps),
        None => match steps_of(first) {
            Some(steps) => run_of(command, second, steps),
            None => None,
        },
    }
}

/// The command that the words spell, if they spell one.
pub fn parse(words: &[String]) -> Option<Command<'_>>
    ensures { MatchOption result (IsUsage (map string_bytes words.entry.now)) (Spelled (map string_bytes words.entry.now)) }
{
    match translation(words) {
        Some(named) => Some(Command::Translate(named)),
        None => match file_to_list(words) {
            Some(file) => Some(Command::List(file)),
            None => match program_to_run(words) {
                Some(named) => Some(Command::Run(named)),
                None => None,
            },
        },
    }
}
