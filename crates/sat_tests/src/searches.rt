// Small formulas, worked by hand.
ghost use Rattle.std.specs.Prelude.{◌≤◌, ◌<◌, IfOk};
ghost use Rattle.std.specs.List.{All};
ghost use Rattle.word_kit.specs.Prelude.{IsLiteral, IsFormula, AreClauses, variable};

use sat_core::{Verdict, solve};
use std::alloc::Global;
use word_kit::{Clause, Clauses, Formula, NoMemory};

// The number where it is a literal of the variables from 1 to 123, and else 1.
fn literal(number: i32) -> i32
    ensures literal { IsLiteral result }
    ensures named { variable result ≤ 123 }
{
    match number {
        -123..=-1 | 1..=123 => number,
        _ => 1,
    }
}

fn clause(alloc: Global, numbers: &[i32]) -> Result<Clause, NoMemory>
    ensures literals { IfOk result (λ clause. All IsLiteral clause) }
    ensures named { IfOk result (λ clause. All (λ literal. variable literal ≤ 123) clause) }
{
    let mut literals = Vec::new(alloc);
    for number in numbers {
        literals.push(literal(*number))?;
    }
    Ok(Clause::from(literals))
}

// A clause is the set of its literals: shorter ones repeat their last.
fn clauses(alloc: Global, lists: &[[i32; 3]]) -> Result<Clauses, NoMemory>
    ensures literals { IfOk result (λ clauses. AreClauses clauses) }
    ensures named { IfOk result (λ clauses. All (λ clause. All (λ literal. variable literal ≤ 123) clause) clauses) }
{
    let mut items = Vec::new(alloc);
    for numbers in lists {
        items.push(clause(alloc, numbers.as_slice())?)?;
    }
    Ok(Clauses::from(items))
}

fn solved(alloc: Global, lists: &[[i32; 3]], limit: usize) -> Result<Verdict, NoMemory> {
    let formula = Formula {
        variables: 123,
        clauses: clauses(alloc, lists)?,
    };
    solve(alloc, &formula, limit)
}

// How many steps refute the formula, if it is refuted, the empty one among them.
fn refuting(alloc: Global, lists: &[[i32; 3]], limit: usize) -> Result<Option<usize>, NoMemory> {
    match solved(alloc, lists, limit)? {
        Verdict::Refuted(log) => Ok(Some(log.clauses.as_slice().len())),
        _ => Ok(None),
    }
}

const SQUARE: [[i32; 3]; 4] = [[1, 2, 2], [1, -2, -2], [-1, 2, 2], [-1, -2, -2]];

// Beside four clauses that can't hold, many that can, from which much follows that is of no use.
fn square_and_chains(alloc: Global) -> Result<Vec<[i32; 3]>, NoMemory> {
    let mut lists = Vec::from_slice(alloc, &SQUARE)?;
    let mut number = 3i32;
    for _ in 0..40 {
        let one = number.wrapping_add(1);
        let other = number.wrapping_add(2);
        let next = number.wrapping_add(3);
        lists.push([number.wrapping_neg(), one, other])?;
        lists.push([one.wrapping_neg(), next, next])?;
        lists.push([other.wrapping_neg(), next, next])?;
        number = next;
    }
    Ok(lists)
}

#[test]
fn four_clauses_over_two_variables_are_refuted(rt: HostRuntime) -> Result<(), NoMemory> {
    assert!(rt; refuting(rt.alloc(), &SQUARE, 9)? == Some(2));
    assert!(rt; refuting(rt.alloc(), &SQUARE, 1)? == Some(2));
    Ok(())
}

#[test]
fn useless_clauses_are_not_learned(rt: HostRuntime) -> Result<(), NoMemory> {
    let lists = square_and_chains(rt.alloc())?;
    assert!(rt; refuting(rt.alloc(), &lists, 100)?.is_some());
    Ok(())
}

// The carry is true where two of the three literals are.
fn push_majority(
    lists: &mut Vec<[i32; 3]>,
    carry: i32,
    literals: [i32; 3],
) -> Result<(), NoMemory> {
    let [one, other, last] = literals;
    for pair in [[one, other], [one, last], [other, last]] {
        let [left, right] = pair;
        lists.push([carry.wrapping_neg(), left, right])?;
        lists.push([carry, left.wrapping_neg(), right.wrapping_neg()])?;
    }
    Ok(())
}

// Of two numbers of 24 bits each is below the other, as a chain of carries tells it: variable 49 is the false first carry.
fn both_below(alloc: Global) -> Result<Vec<[i32; 3]>, NoMemory> {
    let mut lists = Vec::new(alloc);
    lists.push([-49, -49, -49])?;
    let mut below = 49i32;
    let mut above = 49i32;
    let mut bit = 1i32;
    for _ in 0..24 {
        let twin = bit.wrapping_add(24);
        let carry = bit.wrapping_add(49);
        let twin_carry = bit.wrapping_add(73);
        push_majority(&mut lists, carry, [bit.wrapping_neg(), twin, below])?;
        push_majority(&mut lists, twin_carry, [bit, twin.wrapping_neg(), above])?;
        below = carry;
        above = twin_carry;
        bit = bit.wrapping_add(1);
    }
    lists.push([below, below, below])?;
    lists.push([above, above, above])?;
    Ok(lists)
}

#[test]
fn chains_of_carries_are_refuted_within_fifty_steps(rt: HostRuntime) -> Result<(), NoMemory> {
    let lists = both_below(rt.alloc())?;
    assert!(rt; refuting(rt.alloc(), &lists, 50)?.is_some());
    Ok(())
}

#[test]
fn opposite_units_need_no_step(rt: HostRuntime) -> Result<(), NoMemory> {
    assert!(rt; refuting(rt.alloc(), &[[1, 1, 1], [-1, -1, -1]], 0)? == Some(1));
    Ok(())
}

#[test]
fn a_limit_that_is_too_low_is_spent(rt: HostRuntime) -> Result<(), NoMemory> {
    match solved(rt.alloc(), &SQUARE, 0)? {
        Verdict::Spent(log) => assert!(rt; log.clauses.as_slice().is_empty()),
        _ => assert!(rt; false),
    }
    Ok(())
}

#[test]
fn a_clause_has_a_model(rt: HostRuntime) -> Result<(), NoMemory> {
    match solved(rt.alloc(), &[[1, 2, 2]], 9)? {
        Verdict::Model(values) => {
            let values = values.into_vec();
            assert!(rt; values.len() == 123);
            assert!(rt; values[0] || values[1]);
        }
        _ => assert!(rt; false),
    }
    Ok(())
}
