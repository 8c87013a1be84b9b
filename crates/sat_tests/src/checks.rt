// Small formulas, worked by hand.
ghost use Rattle.std.specs.Prelude.{◌≤◌, ◌<◌, IfOk};
ghost use Rattle.std.specs.List.{All};
ghost use Rattle.word_kit.specs.Prelude.{IsLiteral, AreClauses, variable};

use refute_check::{CheckFault, check};
use std::alloc::Global;
use word_kit::{Clause, Clauses, Formula, NoMemory, Refutation};

// The number where it is a literal, and else 1.
fn literal(number: i32) -> i32
    ensures literal { IsLiteral result }
    ensures named { variable result ≤ 2147483647 }
{
    match number {
        -2_147_483_647..=-1 | 1..=2_147_483_647 => number,
        _ => 1,
    }
}

fn clause(alloc: Global, numbers: &[i32]) -> Result<Clause, NoMemory>
    ensures literals { IfOk result (λ clause. All IsLiteral clause) }
    ensures named { IfOk result (λ clause. All (λ literal. variable literal ≤ 2147483647) clause) }
{
    let mut literals = Vec::new(alloc);
    for number in numbers {
        literals.push(literal(*number))?;
    }
    Ok(Clause::from(literals))
}

fn clauses(alloc: Global, lists: &[&[i32]]) -> Result<Clauses, NoMemory>
    ensures literals { IfOk result (λ clauses. AreClauses clauses) }
    ensures named { IfOk result (λ clauses. All (λ clause. All (λ literal. variable literal ≤ 2147483647) clause) clauses) }
{
    let mut items = Vec::new(alloc);
    for numbers in lists {
        items.push(clause(alloc, numbers)?)?;
    }
    Ok(Clauses::from(items))
}

// What the check says.
#[derive(Clone, Copy, PartialEq, Eq)]
enum Verdict {
    Accepted,
    BadStep(usize),
    Unfinished,
}

fn checked(alloc: Global, formula: &[&[i32]], log: &[&[i32]]) -> Result<Verdict, NoMemory> {
    let formula = Formula {
        variables: 2_147_483_647,
        clauses: clauses(alloc, formula)?,
    };
    let log = Refutation {
        clauses: clauses(alloc, log)?,
    };
    match check(alloc, &formula, &log) {
        Ok(()) => Ok(Verdict::Accepted),
        Err(CheckFault::BadStep(place)) => Ok(Verdict::BadStep(place)),
        Err(CheckFault::Unfinished) => Ok(Verdict::Unfinished),
        Err(CheckFault::Memory(error)) => Err(error),
    }
}

#[test]
fn four_clauses_over_two_variables_need_one_step(rt: HostRuntime) -> Result<(), NoMemory> {
    let square: [&[i32]; 4] = [&[1, 2], &[1, -2], &[-1, 2], &[-1, -2]];
    assert!(rt; checked(rt.alloc(), &square, &[&[1], &[]])? == Verdict::Accepted);
    assert!(rt; checked(rt.alloc(), &square, &[&[]])? == Verdict::BadStep(0));
    assert!(rt; checked(rt.alloc(), &square, &[&[1]])? == Verdict::Unfinished);
    Ok(())
}

// Room for each variable up to the last would be more than this machine has.
#[test]
fn high_numbers_take_no_room(rt: HostRuntime) -> Result<(), NoMemory> {
    let last = 2_147_483_647;
    let formula: [&[i32]; 4] = [&[last, 2], &[last, -2], &[-last, 2], &[-last, -2]];
    assert!(rt; checked(rt.alloc(), &formula, &[&[last], &[]])? == Verdict::Accepted);
    assert!(rt; checked(rt.alloc(), &formula, &[&[3]])? == Verdict::BadStep(0));
    Ok(())
}

#[test]
fn opposite_units_are_refuted_by_the_empty_clause(rt: HostRuntime) -> Result<(), NoMemory> {
    assert!(rt; checked(rt.alloc(), &[&[1], &[-1]], &[&[]])? == Verdict::Accepted);
    assert!(rt; checked(rt.alloc(), &[&[1], &[-1]], &[])? == Verdict::Unfinished);
    assert!(rt; checked(rt.alloc(), &[&[1], &[-1]], &[&[5], &[], &[3]])? == Verdict::Unfinished);
    Ok(())
}

#[test]
fn steps_that_say_more_than_the_formula_are_bad(rt: HostRuntime) -> Result<(), NoMemory> {
    assert!(rt; checked(rt.alloc(), &[&[1, 2]], &[&[1], &[]])? == Verdict::BadStep(0));
    assert!(rt; checked(rt.alloc(), &[&[1, 2]], &[&[1, 2]])? == Verdict::Unfinished);
    assert!(rt; checked(rt.alloc(), &[&[1, 2]], &[&[2, 1, 3], &[1]])? == Verdict::BadStep(1));
    Ok(())
}

#[test]
fn clauses_are_sets_of_literals(rt: HostRuntime) -> Result<(), NoMemory> {
    assert!(rt; checked(rt.alloc(), &[&[1, 1], &[-1, -1]], &[&[]])? == Verdict::Accepted);
    assert!(rt; checked(rt.alloc(), &[], &[&[3, -3], &[4, 5, -4]])? == Verdict::Unfinished);
    assert!(rt; checked(rt.alloc(), &[], &[&[3, 3]])? == Verdict::BadStep(0));
    Ok(())
}

#[test]
fn propagation_goes_on_to_the_end(rt: HostRuntime) -> Result<(), NoMemory> {
    let chain: [&[i32]; 4] = [&[-1, 2], &[-2, 3], &[-3, 4], &[-4, 5]];
    assert!(rt; checked(rt.alloc(), &chain, &[&[-1, 5], &[-2, 5]])? == Verdict::Unfinished);
    assert!(rt; checked(rt.alloc(), &chain, &[&[-1, 5], &[-5, 1]])? == Verdict::BadStep(1));
    Ok(())
}
