//! Runs the solver, or the check of a log, on files in the format of the SAT competitions (DIMACS), one clause a line: for
//! measurements.
//!
//!     sat_bench solve FORMULA LIMIT
//!     sat_bench check FORMULA LOG
#![tactic(auto)]

mod reading;

use reading::{formula_of, log_of};
use refute_check::{CheckFault, check};
use sat_core::{Verdict, solve};
use std::alloc::Global;
use std::{env, fs, io};
use word_kit::{Formula, NoMemory, Refutation};

/// What the solver says, and how many learned clauses it took.
fn solved(alloc: Global, formula: &str, limit: usize) -> Result<(&'static str, usize), NoMemory> {
    let formula = formula_of(alloc, formula)?;
    match solve(alloc, &formula, limit)? {
        Verdict::Model(_values) => Ok(("model", 0)),
        Verdict::Refuted(log) => Ok(("refuted", log.clauses.as_slice().len())),
        Verdict::Spent(log) => Ok(("spent", log.clauses.as_slice().len())),
    }
}

/// What the check says, and the step that it is about.
fn checked(alloc: Global, formula: &str, log: &str) -> Result<(&'static str, usize), NoMemory> {
    let formula = formula_of(alloc, formula)?;
    let log = log_of(alloc, log)?;
    match check(alloc, &formula, &log) {
        Ok(()) => Ok(("accepted", log.clauses.as_slice().len())),
        Err(CheckFault::BadStep(place)) => Ok(("bad step", place)),
        Err(CheckFault::Unfinished) => Ok(("unfinished", log.clauses.as_slice().len())),
        Err(CheckFault::Memory(error)) => Err(error),
    }
}

fn main(rt: HostRuntime) -> io::Result<()> {
    let alloc = rt.alloc();
    let mut words = env::args(&rt)?.skip(1);
    let (Some(command), Some(formula), Some(last)) = (words.next(), words.next(), words.next())
    else {
        println!(rt; "usage: sat_bench solve FORMULA LIMIT, or sat_bench check FORMULA LOG")?;
        return Ok(());
    };
    let formula = fs::read_to_string(&rt, formula.as_str())?;
    let answer = if command.as_str() == "check" {
        let log = fs::read_to_string(&rt, last.as_str())?;
        checked(alloc, formula.as_str(), log.as_str())
    } else {
        solved(
            alloc,
            formula.as_str(),
            last.as_str().parse::<usize>().unwrap_or(0),
        )
    };
    match answer {
        Ok((verdict, steps)) => println!(rt; "{verdict} {steps}")?,
        Err(NoMemory) => println!(rt; "out of memory")?,
    }
    Ok(())
}
