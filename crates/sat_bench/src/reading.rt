//! Formulas and logs from text.
ghost use Rattle.std.specs.Prelude.{◌≤◌, IfOk, IfSome};
ghost use Rattle.std.specs.List.{All};
ghost use Rattle.word_kit.specs.Prelude.{IsLiteral, IsFormula, AreClauses, variable};

use std::alloc::Global;
use word_kit::{Clause, Clauses, Formula, NoMemory, Refutation};

/// The variables that literals can name are those up to this one.
const LAST_VARIABLE: u32 = 2_147_483_647;

/// The number, where it is a literal of the variables up to this one.
fn literal(number: i32, variables: u32) -> Option<i32>
    ensures literal { IfSome result IsLiteral }
    ensures named { IfSome result (λ literal. variable literal ≤ variables) }
{
    if number != 0 && number != i32::MIN && number.unsigned_abs() <= variables {
        Some(number)
    } else {
        None
    }
}

/// The literals of a line, up to its end. Other words are passed over.
fn clause(alloc: Global, line: &str, variables: u32) -> Result<Clause, NoMemory>
    ensures literals { IfOk result (All IsLiteral) }
    ensures named { IfOk result (All (λ literal. variable literal ≤ variables)) }
{
    let mut literals = Vec::new(alloc);
    for word in line.split_whitespace() {
        if let Ok(number) = word.parse::<i32>() {
            if let Some(found) = literal(number, variables) {
                literals.push(found)?;
            }
        }
    }
    Ok(Clause::from(literals))
}

/// Whether the line is a clause: no comment, no header and no deletion.
fn is_clause(line: &str) -> bool {
    !line.starts_with('c') && !line.starts_with('p') && !line.starts_with('d')
}

/// The clauses of the lines.
fn clauses(alloc: Global, text: &str, variables: u32) -> Result<Clauses, NoMemory>
    ensures literals { IfOk result AreClauses }
    ensures named { IfOk result (All (λ clause. All (λ literal. variable literal ≤ variables) clause)) }
{
    let mut items = Vec::new(alloc);
    for line in text.lines() {
        if is_clause(line) {
            items.push(clause(alloc, line, variables)?)?;
        }
    }
    Ok(Clauses::from(items))
}

/// How many variables the header `p cnf VARIABLES CLAUSES` says that there are, or none.
fn variables_of(text: &str) -> u32 {
    for line in text.lines() {
        if line.starts_with('p') {
            if let Some(word) = line.split_whitespace().nth(2) {
                return word.parse::<u32>().unwrap_or(0).min(LAST_VARIABLE);
            }
        }
    }
    0
}

/// The formula of a text. Literals of variables beyond the header's number are passed over.
pub fn formula_of(alloc: Global, text: &str) -> Result<Formula, NoMemory>
    ensures { IfOk result IsFormula }
{
    let variables = variables_of(text);
    let clauses = clauses(alloc, text, variables)?;
    Ok(Formula { variables, clauses })
}

/// The added clauses of a log.
pub fn log_of(alloc: Global, text: &str) -> Result<Refutation, NoMemory>
    ensures { IfOk result (λ log. AreClauses log.clauses) }
{
    let clauses = clauses(alloc, text, LAST_VARIABLE)?;
    Ok(Refutation { clauses })
}
