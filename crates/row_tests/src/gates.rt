use circuit::*;
use std::alloc::Global;
use word_kit::{Alg, Clauses, NoMemory};

// Expected values are worked out by hand from the rules of gates.

fn holds(got: Result<bool, NoMemory>) -> bool {
    match got {
        Ok(told) => told,
        Err(NoMemory) => false,
    }
}

fn inputs_are_numbered(alloc: Global) -> Result<bool, NoMemory> {
    let mut gates = Gates::fresh(alloc);
    let first = gates.input()?;
    let second = gates.input()?;
    let third = gates.input()?;
    Ok(first.is(Lit::Var(1)) && second.is(Lit::Var(2)) && third.is(Lit::Var(3)))
}

#[test]
fn inputs_have_the_next_variables(rt: HostRuntime) {
    assert!(rt; holds(inputs_are_numbered(rt.alloc())));
}

fn and_is_shared(alloc: Global) -> Result<bool, NoMemory> {
    let mut gates = Gates::fresh(alloc);
    let b = gates.input()?;
    let c = gates.input()?;
    let first = gates.and_gate(b, c)?;
    let second = gates.and_gate(c, b)?;
    Ok(first.is(Lit::Var(3)) && second.is(Lit::Var(3)))
}

fn xor_is_shared(alloc: Global) -> Result<bool, NoMemory> {
    let mut gates = Gates::fresh(alloc);
    let b = gates.input()?;
    let c = gates.input()?;
    let first = gates.xor_gate(b, c)?;
    let second = gates.xor_gate(c.flip(), b)?;
    Ok(first.is(Lit::Var(3)) && second.is(Lit::Var(-3)))
}

#[test]
fn equal_gates_are_shared(rt: HostRuntime) {
    assert!(rt; holds(and_is_shared(rt.alloc())));
    assert!(rt; holds(xor_is_shared(rt.alloc())));
}

fn constants_are_folded(alloc: Global) -> Result<bool, NoMemory> {
    let mut gates = Gates::fresh(alloc);
    let five = gates.lit(0xffff_fffd);
    let seven = gates.lit(7);
    let four = gates.lit(4);
    let (sum, carry) = gates.add(five, seven, Lit::Const(false))?;
    Ok(sum == four && carry.is(Lit::Const(true)))
}

#[test]
fn sums_of_numbers_make_no_gate(rt: HostRuntime) {
    assert!(rt; holds(constants_are_folded(rt.alloc())));
}

fn product_is_shared(alloc: Global) -> Result<bool, NoMemory> {
    let mut gates = Gates::fresh(alloc);
    let b = gates.input()?;
    let three = gates.lit(3);
    let word = gates.put_bit(three, 0, b);
    let first = gates.mul_low(word, three)?;
    let second = gates.mul_low(three, word)?;
    Ok(first == second && first[0].is(Lit::Var(2)) && first[31].is(Lit::Var(33)))
}

#[test]
fn products_of_a_pair_are_one(rt: HostRuntime) {
    assert!(rt; holds(product_is_shared(rt.alloc())));
}

fn are_clauses(clauses: &Clauses, expected: &[&[i32]]) -> bool {
    let clauses = clauses.as_slice();
    if clauses.len() != expected.len() {
        return false;
    }
    for i in 0..clauses.len() {
        if clauses[i].as_slice() != expected[i] {
            return false;
        }
    }
    true
}

fn inputs_differ(alloc: Global) -> Result<bool, NoMemory> {
    let mut gates = Gates::fresh(alloc);
    gates.input()?;
    gates.input()?;
    let formula = gates.miter(alloc, &[(Lit::Var(1), Lit::Var(2))])?;
    let xor: [&[i32]; 5] = [&[-3, 1, 2], &[-3, -1, -2], &[3, -1, 2], &[3, 1, -2], &[3]];
    Ok(formula.variables == 3 && are_clauses(&formula.clauses, &xor))
}

#[test]
fn two_inputs_may_differ(rt: HostRuntime) {
    assert!(rt; holds(inputs_differ(rt.alloc())));
}

// Variable 4 is an Xor that nothing needs, variable 5 an And, and variable 6 the Xor of the pair.
fn result_differs(alloc: Global) -> Result<bool, NoMemory> {
    let mut gates = Gates::fresh(alloc);
    let b = gates.input()?;
    let c = gates.input()?;
    let d = gates.input()?;
    gates.xor_gate(b, d)?;
    let both = gates.and_gate(b, c.flip())?;
    let formula = gates.miter(alloc, &[(d, d), (both, d)])?;
    let reached: [&[i32]; 8] = [
        &[-5, 1],
        &[-5, -2],
        &[5, -1, 2],
        &[-6, 3, 5],
        &[-6, -3, -5],
        &[6, -3, 5],
        &[6, 3, -5],
        &[6],
    ];
    Ok(formula.variables == 6 && are_clauses(&formula.clauses, &reached))
}

#[test]
fn gates_out_of_reach_are_left_out(rt: HostRuntime) {
    assert!(rt; holds(result_differs(rt.alloc())));
}

fn constants_tell(alloc: Global) -> Result<bool, NoMemory> {
    let mut gates = Gates::fresh(alloc);
    let b = gates.input()?;
    let never = gates.miter(alloc, &[(b, b)])?;
    let always = gates.miter(alloc, &[(b, b), (b, b.flip())])?;
    Ok(are_clauses(&never.clauses, &[&[]]) && are_clauses(&always.clauses, &[]))
}

#[test]
fn constant_differences_make_no_gate(rt: HostRuntime) {
    assert!(rt; holds(constants_tell(rt.alloc())));
}
