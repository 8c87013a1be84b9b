//! The words of a step.

ghost use Rattle.std.specs.Prelude.{◌≡◌, ◌≢◌, ◌↔◌, ◌<◌, ◌^◌, ℕ, MatchOption, IsTrue, map};
ghost use Rattle.reg_map.specs.declared.moves.Move.TheVariants.{Drop as DropMove, Take as TakeMove};
ghost use Rattle.plan_form.specs.declared.problem.Step.{Step as TheStep};
ghost use Rattle.plan_form.specs.declared.problem.Step.TheVariants.{Go, Lay};
ghost use Rattle.plan_form.specs.declared.problem.Tile.TheVariants.{Base as BaseTile, Rule as RuleTile};
ghost use Rattle.plan_form.specs.Texts.{IsWrittenStep, step_words};

use crate::fields::slot_of;
use crate::problem::{Step, Tile};
use line_text::is;
use outside::decimal;
use reg_map::Move;

fn is_base(words: &[&[u8]]) -> bool
    ensures { IsTrue result ↔ (map (λ w. w.now) words.now ≡ step_words (Lay BaseTile)) }
{
    match words {
        [name] => is(name, b"base"),
        _ => false,
    }
}

fn rule_of(words: &[&[u8]]) -> Option<u32>
    ensures { MatchOption result
        ((n : ℕ) → n < 2 ^ 32 → map (λ w. w.now) words.now ≢ step_words (Lay (RuleTile n)))
        (λ n. map (λ w. w.now) words.now ≡ step_words (Lay (RuleTile n))) }
{
    let [name, number] = words else {
        return None;
    };
    if !is(name, b"rule") {
        return None;
    }
    let Some(number) = decimal(number, u32::MAX as u64) else {
        return None;
    };
    Some(number as u32)
}

fn drop_of(words: &[&[u8]]) -> Option<u8>
    ensures { MatchOption result
        ((s : ℕ) → s < 3 → map (λ w. w.now) words.now ≢ step_words (Go (DropMove s)))
        (λ s. (s < 3) × (map (λ w. w.now) words.now ≡ step_words (Go (DropMove s)))) }
{
    let [name, slot] = words else {
        return None;
    };
    if !is(name, b"drop") {
        return None;
    }
    slot_of(slot)
}

fn take_of(words: &[&[u8]]) -> Option<(u8, u8)>
    ensures { MatchOption result
        ((s g : ℕ) → s < 3 → g < 32 → map (λ w. w.now) words.now ≢ step_words (Go (TakeMove s g)))
        (λ r. (r.0 < 3) × (r.1 < 32) × (map (λ w. w.now) words.now ≡ step_words (Go (TakeMove r.0 r.1)))) }
{
    let [name, slot, gpr] = words else {
        return None;
    };
    if !is(name, b"take") {
        return None;
    }
    let Some(slot) = slot_of(slot) else {
        return None;
    };
    let Some(gpr) = decimal(gpr, 31) else {
        return None;
    };
    Some((slot, gpr as u8))
}

/// The step that the words say.
pub fn step_of(words: &[&[u8]]) -> Option<Step>
    ensures { MatchOption result
        ((s : TheStep) → IsWrittenStep s → map (λ w. w.now) words.now ≢ step_words s)
        (λ s. IsWrittenStep s × (map (λ w. w.now) words.now ≡ step_words s)) }
{
    if is_base(words) {
        return Some(Step::Lay(Tile::Base));
    }
    if let Some(number) = rule_of(words) {
        return Some(Step::Lay(Tile::Rule(number)));
    }
    if let Some(slot) = drop_of(words) {
        return Some(Step::Go(Move::Drop(slot)));
    }
    if let Some((slot, gpr)) = take_of(words) {
        return Some(Step::Go(Move::Take(slot, gpr)));
    }
    None
}
