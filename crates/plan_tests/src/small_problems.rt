// Small problems: those of blocks of few words, with tiles of rules at random places. `solve` answers the plan that is best of
// all plans.

ghost use Rattle.std.specs.Prelude.{◌≢◌, ◌<◌, IfOk, OnOk, IsTrue, All, length};
ghost use Rattle.plan_form.specs.Prelude.{IsFull};
ghost use Rattle.reg_map.specs.Place.{IsMap};
ghost use Rattle.offer_make.specs.Problem.{IsBlockOf, NamesTarget};
ghost use Rattle.plan_tests.specs.Offers.{MayBeOffered};

use crate::all_plans::best_plan;
use crate::edges::order_of;
use crate::programs::{EMPTY, blocks_and_live_sets};
use block_find::Block;
use liveness::LiveSets;
use offer_make::problem;
use plan_form::{Offer, Problem, Tile, check_labels, plan_cost, same_map};
use ppc_isa::{Instr, Map, decode};
use rand_core::utils::NextWord;
use rand_pcg::Pcg32;
use rule_audit::Audited;
use std::alloc::Global;
use std::process::Abort;
use std::test::Fail;
use tile_plan::solve;
use word_kit::NoMemory;

// Whether the word is an unconditional branch.
fn is_branch(word: u32) -> bool
    ensures { IsTrue result → NamesTarget word }
{
    match decode(word) {
        Some(instr) => matches!(instr, Instr::Branch { .. }),
        None => false,
    }
}

// The problem of a leader's block that ends with an unconditional branch, between these maps.
fn problem_between(
    rt: &impl Abort,
    alloc: Global,
    block: &Block,
    live: &LiveSets,
    entry: &Map,
    exit: &Map,
) -> Result<Problem, NoMemory>
    requires block { IsBlockOf live.now block.now }
    requires entry { IsMap entry.now }
    requires exit { IsMap exit.now }
    ensures full { IfOk result (λ q. IsFull q) }
{
    let words = block.words.as_slice();
    if !is_branch(words[words.len() - 1]) {
        panic!(rt; "another end");
    }
    problem(alloc, block, entry, exit, true, live, &Audited::none(alloc))
}

// Whether a tile isn't offered yet.
fn is_new(offers: &[Offer], tile: Tile) -> bool
    ensures { IsTrue result → All (λ other. other.tile ≢ tile) offers.now }
{
    offers.iter().all(|other| other.tile != tile)
}

// Whether the tile of a rule may be offered too.
fn may_be_offered(problem: &Problem, offer: &Offer) -> bool
    requires { IsFull problem.now }
    ensures { IsTrue result → MayBeOffered problem.now offer.now }
{
    let last = problem.places - 1;
    let leads_on = offer.from < offer.to && offer.to <= last && offer.to - offer.from <= 3;
    let may_end = offer.to != last || same_map(&offer.map, &problem.exit);
    leads_on && may_end && offer.price < 1024 && is_new(problem.offers.as_slice(), offer.tile)
}

// One more offer, if it may be made: the tile of a rule under the map of this number.
fn push_rule(
    problem: &mut Problem,
    from: u32,
    count: u32,
    map: usize,
    number: u32,
    price: u32,
) -> Result<(), NoMemory>
    requires full { IsFull problem.old }
    requires map { map < length problem.old.maps.items }
    ensures { OnOk result (IsFull problem.new) }
{
    let offer = Offer {
        from,
        to: from.saturating_add(count),
        map: problem.maps[map],
        tile: Tile::Rule(number),
        price,
    };
    if may_be_offered(problem, &offer) {
        problem.offers.push(offer)?;
    }
    Ok(())
}

// Offers of rules at random, as many as may be made of so many.
fn push_rules(problem: &mut Problem, random: &mut Pcg32, count: u32) -> Result<(), NoMemory>
    requires { IsFull problem.old }
    ensures { OnOk result (IsFull problem.new) }
{
    for number in 0..count {
        let from = random.next_word() % problem.places;
        let words = 1 + random.next_word() % 3;
        let map = random.next_word() as usize % problem.maps.len();
        let price = random.next_word() % 12;
        push_rule(problem, from, words, map, number, price)?;
    }
    Ok(())
}

// A map that holds r3, r4, both or none.
fn random_map(random: &mut Pcg32, gprs: u32) -> Map
    ensures { IsMap result }
{
    let mut map = EMPTY;
    if gprs > 1 && random.next_word() % 2 == 0 {
        map.esi = Some(4);
    }
    match random.next_word() % 4 {
        0 => map.ebx = Some(3),
        1 => map.edi = Some(3),
        _ => {},
    }
    map
}

// `solve` answers the best of all plans. Answers how many plans there are.
fn compare(rt: &impl Abort, alloc: Global, problem: &Problem) -> Result<u64, Fail>
    requires { IsFull problem.now }
{
    let best = best_plan(rt, alloc, problem)?;
    let (plan, labels) = solve(alloc, problem)?;
    assert_eq!(rt; plan_cost(problem, &plan), Some(best.cost));
    assert!(rt; check_labels(problem, &plan, &labels).is_ok());
    assert_eq!(rt; plan.steps.len(), best.steps.len());
    for (step, edge) in plan.steps.iter().zip(best.steps.iter()) {
        assert_eq!(rt; order_of(problem.maps.as_slice(), *step), edge.order);
    }
    Ok(best.tried)
}

// The block with boundary maps and offers of rules at random, as often as is said. Answers how many plans there are in all.
fn compare_often(
    rt: &impl Abort,
    alloc: Global,
    block: &Block,
    live: &LiveSets,
    gprs: u32,
    rules: u32,
    times: u32,
) -> Result<u64, Fail>
    requires { IsBlockOf live.now block.now }
{
    let mut random = Pcg32::new(29, gprs as u64);
    let mut tried: u64 = 0;
    for _ in 0..times {
        let entry = random_map(&mut random, gprs);
        let exit = random_map(&mut random, gprs);
        let mut problem = problem_between(rt, alloc, block, live, &entry, &exit)?;
        push_rules(&mut problem, &mut random, rules)?;
        tried = tried.saturating_add(compare(rt, alloc, &problem)?);
    }
    Ok(tried)
}

// The same for the first block of this code.
fn compare_first(
    rt: &impl Abort,
    alloc: Global,
    code: &str,
    gprs: u32,
    rules: u32,
    times: u32,
) -> Result<u64, Fail> {
    let (blocks, live) = blocks_and_live_sets(rt, alloc, code)?;
    assert!(rt; blocks.leaders.as_slice().len() > 0);
    compare_often(rt, alloc, blocks.at(0), &live, gprs, rules, times)
}

// addi r3,r3,1 or li r3,1; b to the next word; and blr
#[test]
fn two_words_and_one_register(rt: HostRuntime) -> Result<(), Fail> {
    let alloc = rt.alloc();
    for code in ["38630001480000044e800020", "38600001480000044e800020"] {
        let tried = compare_first(&rt, alloc, code, 1, 8, 40)?;
        assert!(rt; tried > 5_000);
    }
    Ok(())
}

// addi r3,r3,1; li r3,1; b to the next word; and blr
#[test]
fn three_words_and_one_register(rt: HostRuntime) -> Result<(), Fail> {
    let code = "3863000138600001480000044e800020";
    let tried = compare_first(&rt, rt.alloc(), code, 1, 6, 20)?;
    assert!(rt; tried > 20_000);
    Ok(())
}

// b to the next word, and blr
#[test]
fn one_word_and_two_registers(rt: HostRuntime) -> Result<(), Fail> {
    let tried = compare_first(&rt, rt.alloc(), "480000044e800020", 2, 4, 120)?;
    assert!(rt; tried > 500);
    Ok(())
}
