//! What is known after some lines of a rule text.

ghost use Rattle.std.specs.Prelude.{◌≡◌, ◌<◌, ◌++◌, ◌∷◌, [], ◌↔◌, IsTrue, IfOk, MatchOption, count_by};
ghost use Rattle.rule_body.specs.Prelude.{IsGoal, template_of, accesses as access, AreHostLines, lines_of};
ghost use Rattle.rule_form.specs.Machine.{State, next, IsGood, IsItem};
ghost use Rattle.rule_form.specs.Said.{item_of, IsLine};
ghost use Rattle.rule_form.specs.Partial.{IsPartialBody};
ghost use Rattle.rule_form.specs.Reached.{state_of, IsReached};

use crate::fields::Slots;
use crate::line::Line;
use crate::window::{with_dead, with_guest, with_slots};
use ia_codec::Op;
use rule_body::{
    Body, DeadSet, Goal, Guest, HostLine, Rule, access_count, accesses, fits, take_fits,
};
use std::alloc::{AllocError, Global};
use word_kit::{Clause, Clauses, Refutation};

/// The most rules of a text.
const MOST_RULES: usize = 1024;

/// What is known after some lines: the whole rules, and the parts of one.
#[derive(Drop)]
pub enum Progress {
    Start,
    Between(Vec<Rule>),
    Guests(Vec<Rule>, Goal),
    Dead(Vec<Rule>, Goal),
    Hosts(Vec<Rule>, Goal, Body),
    Clauses(Vec<Rule>, Goal, Body, Vec<Clause>),
}

fn open(rules: Vec<Rule>) -> Option<Progress>
    requires reached { IsReached (Progress.Between rules) }
    requires good { IsGood (state_of (Progress.Between rules)) }
    ensures { MatchOption result
        ((t : State) → next (state_of (Progress.Between rules)) (item_of (Line.Open)) ≡ Some t → IsGood t → ⊥)
        (λ p. IsReached p × IsGood (state_of p) × (next (state_of (Progress.Between rules)) (item_of (Line.Open)) ≡ Some (state_of p))) }
{
    if rules.len() >= MOST_RULES {
        return None;
    }
    let goal = Goal {
        words: [0; 3],
        free: [false; 3],
        count: 0,
        slots: [false; 6],
        parameters: 0,
        dead: DeadSet { bits: 0 },
    };
    Some(Progress::Guests(rules, goal))
}

fn add_guest(rules: Vec<Rule>, goal: Goal, guest: Guest) -> Option<Progress>
    requires reached { IsReached (Progress.Guests rules goal) }
    requires good { IsGood (state_of (Progress.Guests rules goal)) }
    ensures { MatchOption result
        ((t : State) → next (state_of (Progress.Guests rules goal)) (item_of (Line.Guest guest)) ≡ Some t → IsGood t → ⊥)
        (λ p. IsReached p × IsGood (state_of p) × (next (state_of (Progress.Guests rules goal)) (item_of (Line.Guest guest)) ≡ Some (state_of p))) }
{
    let Some(goal) = with_guest(goal, guest) else {
        return None;
    };
    Some(Progress::Guests(rules, goal))
}

fn add_slots(rules: Vec<Rule>, goal: Goal, slots: Slots) -> Option<Progress>
    requires reached { IsReached (Progress.Guests rules goal) }
    requires good { IsGood (state_of (Progress.Guests rules goal)) }
    requires slots { IsLine (Line.At slots) }
    ensures { MatchOption result
        ((t : State) → next (state_of (Progress.Guests rules goal)) (item_of (Line.At slots)) ≡ Some t → IsGood t → ⊥)
        (λ p. IsReached p × IsGood (state_of p) × (next (state_of (Progress.Guests rules goal)) (item_of (Line.At slots)) ≡ Some (state_of p))) }
{
    let Some(goal) = with_slots(goal, slots) else {
        return None;
    };
    Some(Progress::Dead(rules, goal))
}

fn add_dead(rules: Vec<Rule>, goal: Goal, bits: u32) -> Option<Progress>
    requires reached { IsReached (Progress.Dead rules goal) }
    requires good { IsGood (state_of (Progress.Dead rules goal)) }
    requires dead { IsItem (item_of (Line.Dead bits)) }
    ensures { MatchOption result
        ((t : State) → next (state_of (Progress.Dead rules goal)) (item_of (Line.Dead bits)) ≡ Some t → IsGood t → ⊥)
        (λ p. IsReached p × IsGood (state_of p) × (next (state_of (Progress.Dead rules goal)) (item_of (Line.Dead bits)) ≡ Some (state_of p))) }
{
    let Some(goal) = with_dead(goal, bits) else {
        return None;
    };
    let none = HostLine {
        op: Op::Int3,
        hole: None,
    };
    let body = Body {
        lines: [none; 4],
        count: 0,
        take: None,
    };
    Some(Progress::Hosts(rules, goal, body))
}

// Whether a line would be the second that accesses memory of the guest.
fn is_second(lines: &[HostLine], line: &HostLine) -> bool
    ensures { IsTrue result ↔ (IsTrue (access line.now.op) × (0 < count_by (λ l. access l.op) lines.now)) }
{
    accesses(&line.op) && access_count(lines) > 0
}

// The body with a line more, if it may have it.
fn with_line(goal: &Goal, body: Body, line: HostLine) -> Option<Body>
    requires goal { IsGoal goal.now }
    requires body { IsPartialBody goal.now body }
    ensures { MatchOption result
        (AreHostLines (template_of goal.now) (lines_of body ++ line ∷ []) → ⊥)
        (λ b. IsPartialBody goal.now b × (lines_of b ≡ lines_of body ++ line ∷ [])) }
{
    if body.count >= 4 {
        return None;
    }
    if !fits(goal, &line) {
        return None;
    }
    if is_second(&body.lines[..body.count as usize], &line) {
        return None;
    }
    let mut further = body;
    further.lines[body.count as usize] = line;
    further.count += 1;
    Some(further)
}

fn add_host(rules: Vec<Rule>, goal: Goal, body: Body, line: HostLine) -> Option<Progress>
    requires reached { IsReached (Progress.Hosts rules goal body) }
    requires good { IsGood (state_of (Progress.Hosts rules goal body)) }
    ensures { MatchOption result
        ((t : State) → next (state_of (Progress.Hosts rules goal body)) (item_of (Line.Host line)) ≡ Some t → IsGood t → ⊥)
        (λ p. IsReached p × IsGood (state_of p) × (next (state_of (Progress.Hosts rules goal body)) (item_of (Line.Host line)) ≡ Some (state_of p))) }
{
    let Some(body) = with_line(&goal, body, line) else {
        return None;
    };
    Some(Progress::Hosts(rules, goal, body))
}

fn add_take(
    alloc: Global,
    rules: Vec<Rule>,
    goal: Goal,
    body: Body,
    take: Option<u8>,
) -> Option<Progress>
    requires reached { IsReached (Progress.Hosts rules goal body) }
    requires good { IsGood (state_of (Progress.Hosts rules goal body)) }
    ensures { MatchOption result
        ((t : State) → next (state_of (Progress.Hosts rules goal body)) (item_of (Line.Take take)) ≡ Some t → IsGood t → ⊥)
        (λ p. IsReached p × IsGood (state_of p) × (next (state_of (Progress.Hosts rules goal body)) (item_of (Line.Take take)) ≡ Some (state_of p))) }
{
    if !take_fits(&goal, take) {
        return None;
    }
    let body = Body { take, ..body };
    Some(Progress::Clauses(rules, goal, body, Vec::new(alloc)))
}

fn add_clause(
    rules: Vec<Rule>,
    goal: Goal,
    body: Body,
    clauses: Vec<Clause>,
    literals: Vec<i32>,
) -> Result<Option<Progress>, AllocError>
    requires reached { IsReached (Progress.Clauses rules goal body clauses) }
    requires good { IsGood (state_of (Progress.Clauses rules goal body clauses)) }
    requires rising { IsItem (item_of (Line.Clause literals)) }
    ensures { IfOk result (λ o. MatchOption o
        ((t : State) → next (state_of (Progress.Clauses rules goal body clauses)) (item_of (Line.Clause literals)) ≡ Some t → IsGood t → ⊥)
        (λ p. IsReached p × IsGood (state_of p) × (next (state_of (Progress.Clauses rules goal body clauses)) (item_of (Line.Clause literals)) ≡ Some (state_of p)))) }
{
    let mut clauses = clauses;
    clauses.push(Clause::from(literals))?;
    Ok(Some(Progress::Clauses(rules, goal, body, clauses)))
}

fn close(
    rules: Vec<Rule>,
    goal: Goal,
    body: Body,
    clauses: Vec<Clause>,
) -> Result<Option<Progress>, AllocError>
    requires reached { IsReached (Progress.Clauses rules goal body clauses) }
    requires good { IsGood (state_of (Progress.Clauses rules goal body clauses)) }
    ensures { IfOk result (λ o. MatchOption o
        ((t : State) → next (state_of (Progress.Clauses rules goal body clauses)) (item_of (Line.End)) ≡ Some t → IsGood t → ⊥)
        (λ p. IsReached p × IsGood (state_of p) × (next (state_of (Progress.Clauses rules goal body clauses)) (item_of (Line.End)) ≡ Some (state_of p)))) }
{
    let mut rules = rules;
    let log = Refutation {
        clauses: Clauses::from(clauses),
    };
    rules.push(Rule { goal, body, log })?;
    Ok(Some(Progress::Between(rules)))
}

/// What is known after one more line, or None where no text goes on with it.
pub fn advance(
    alloc: Global,
    progress: Progress,
    line: Line,
) -> Result<Option<Progress>, AllocError>
    requires reached { IsReached progress }
    requires good { IsGood (state_of progress) }
    requires line { IsLine line }
    requires item { IsItem (item_of line) }
    ensures { IfOk result (λ o. MatchOption o
        ((t : State) → next (state_of progress) (item_of line) ≡ Some t → IsGood t → ⊥)
        (λ p. IsReached p × IsGood (state_of p) × (next (state_of progress) (item_of line) ≡ Some (state_of p)))) }
{
    match (progress, line) {
        (Progress::Start, Line::Title) => Ok(Some(Progress::Between(Vec::new(alloc)))),
        (Progress::Between(rules), Line::Open) => Ok(open(rules)),
        (Progress::Guests(rules, goal), Line::Guest(guest)) => Ok(add_guest(rules, goal, guest)),
        (Progress::Guests(rules, goal), Line::At(slots)) => Ok(add_slots(rules, goal, slots)),
        (Progress::Dead(rules, goal), Line::Dead(bits)) => Ok(add_dead(rules, goal, bits)),
        (Progress::Hosts(rules, goal, body), Line::Host(line)) => Ok(add_host(
            rules, goal, body, line,
        )),
        (Progress::Hosts(rules, goal, body), Line::Take(take)) => Ok(add_take(
            alloc, rules, goal, body, take,
        )),
        (Progress::Clauses(rules, goal, body, clauses), Line::Clause(literals)) => {
            add_clause(rules, goal, body, clauses, literals)
        }
        (Progress::Clauses(rules, goal, body, clauses), Line::End) => close(
            rules, goal, body, clauses,
        ),
        _ => Ok(None),
    }
}
