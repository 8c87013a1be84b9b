//! Bodies: at most four ops.

ghost use Rattle.std.specs.Prelude.{◌≡◌, ◌↔◌, ◌≤◌, ◌+◌, ◌<◌, IsTrue, count_by, take, drop, sum_by, List, length};
ghost use Rattle.std.specs.List.{AllByRecursion};
ghost use Rattle.ia_codec.specs.Prelude.{cost_of};
ghost use Rattle.rule_body.specs.declared.line.HostLine.{HostLine as Line};
ghost use Rattle.rule_body.specs.Templates.{IsBranching};
ghost use Rattle.rule_body.specs.Goals.{IsGoal, guests_of, template_of};
ghost use Rattle.rule_body.specs.Ops.{accesses as access};
ghost use Rattle.rule_body.specs.Lines.{IsHostLine};
ghost use Rattle.rule_body.specs.Bodies.{IsBody, IsTake, IsCondition, no_line, cost_of_body, lines_of, take_cost};

use crate::goal::{Goal, is_ending_word, last_guest};
use crate::line::{HostLine, fits};
use crate::operands::accesses;
use ia_codec::{Op, cost};

/// At most four ops that do what a window does. `take` is the condition under which the branch that ends the window is
/// taken, by its number in the opcodes. What is past `count` is the op int3 without a hole.
#[derive(Clone, Copy)]
pub struct Body {
    pub lines: [HostLine; 4],
    pub count: u8,
    pub take: Option<u8>,
}

/// Whether each of the lines may stand in a body for the goal.
fn all_fit(goal: &Goal, lines: &[HostLine]) -> bool
    requires { IsGoal goal.now }
    ensures { IsTrue result ↔ AllByRecursion (IsHostLine (template_of goal.now)) lines.now }
{
    for line in lines {
        if !fits(goal, line) {
            return false;
        }
    }
    true
}

/// How many of the lines access memory of the guest.
pub fn access_count(lines: &[HostLine]) -> usize
    ensures { result ≡ count_by (λ line. access line.op) lines.now }
{
    let mut count = 0;
    for line in lines {
        if accesses(&line.op) {
            count += 1;
        }
    }
    count
}

// Whether no line stands there.
fn is_clear(lines: &[HostLine]) -> bool
    ensures { IsTrue result ↔ AllByRecursion (λ line. line ≡ no_line) lines.now }
{
    for line in lines {
        if !matches!(line.op, Op::Int3) || line.hole.is_some() {
            return false;
        }
    }
    true
}

/// Whether the window of a goal ends in a branch.
fn is_branching(goal: &Goal) -> bool
    requires { IsGoal goal.now }
    ensures { IsTrue result ↔ IsBranching (guests_of goal.now) }
{
    is_ending_word(last_guest(goal).word)
}

/// Whether a body for the goal may have this condition: one that a jump can have where the window ends in a branch, else none.
pub fn take_fits(goal: &Goal, take: Option<u8>) -> bool
    requires { IsGoal goal.now }
    ensures { IsTrue result ↔ IsTake (template_of goal.now).guests take }
{
    match take {
        None => !is_branching(goal),
        Some(code) => matches!(code, 2..=9 | 12..=15) && is_branching(goal),
    }
}

/// Whether a body may stand for a goal.
pub fn allowed(goal: &Goal, body: &Body) -> bool
    requires { IsGoal goal.now }
    ensures { IsTrue result ↔ IsBody goal.now body.now }
{
    if body.count > 4 {
        return false;
    }
    let (lines, rest) = body.lines.split_at(body.count as usize);
    all_fit(goal, lines) && access_count(lines) <= 1 && is_clear(rest) && take_fits(goal, body.take)
}

fn cost_of_lines(lines: &[HostLine]) -> u32
    requires { length lines.now ≤ 4 }
    ensures sum { result ≡ sum_by (λ line. cost_of line.op) lines.now }
    ensures most { result ≤ 88 }
{
    let mut total = 0;
    for line in lines {
        total += cost(&line.op);
    }
    total
}

/// The price of a body of at most four lines: that of its ops, and 1 more with a condition.
pub fn body_cost(body: &Body) -> u32
    requires { body.now.count ≤ 4 }
    ensures { result ≡ cost_of_body body.now }
{
    let ops = cost_of_lines(&body.lines[..body.count as usize]);
    match body.take {
        None => ops,
        Some(_) => ops + 1,
    }
}
