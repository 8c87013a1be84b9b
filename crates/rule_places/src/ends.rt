//! What a body is to leave.

ghost use Rattle.std.specs.Prelude.{◌≡◌, ◌<◌, IfOk};
ghost use Rattle.std.specs.List.{All};
ghost use Rattle.window_circuits.specs.Rules.{IsEnd, IsTake};
ghost use Rattle.rule_body.specs.Prelude.{IsGoal};
ghost use Rattle.rule_places.specs.Ends.{named_end, named_ends, is_needed as needed, ends_of, jump_of};

use ia_codec::{Condition, Op};
use place_circuits::Field;
use rule_body::{Body, Goal};
use std::alloc::Global;
use window_circuits::End;
use word_kit::NoMemory;

/// An end, and the number of the name whose location stands there: p1 to p6, lr, ctr, cr0 to cr7, ca, so, ov, xc, from 0.
#[derive(Clone, Copy)]
pub struct NamedEnd {
    pub name: u8,
    pub end: End,
}

fn named_end(name: u8, place: u8, low: u8, count: u8, to: u8) -> NamedEnd
    ensures { result ≡ named_end name place low count to }
{
    NamedEnd {
        name,
        end: End {
            from: Field { place, low, count },
            to,
        },
    }
}

// The ends of all names, in their order.
fn named_ends() -> [NamedEnd; 26]
    ensures { result ≡ named_ends }
{
    [
        named_end(0, 0, 0, 32, 0),
        named_end(1, 1, 0, 32, 1),
        named_end(2, 2, 0, 32, 2),
        named_end(3, 3, 0, 32, 3),
        named_end(4, 4, 0, 32, 4),
        named_end(5, 5, 0, 32, 5),
        named_end(6, 11, 0, 8, 32),
        named_end(6, 11, 8, 8, 33),
        named_end(6, 11, 16, 8, 34),
        named_end(6, 11, 24, 8, 35),
        named_end(7, 12, 0, 8, 36),
        named_end(7, 12, 8, 8, 37),
        named_end(7, 12, 16, 8, 38),
        named_end(7, 12, 24, 8, 39),
        named_end(8, 6, 28, 4, 40),
        named_end(9, 6, 24, 4, 41),
        named_end(10, 6, 20, 4, 42),
        named_end(11, 6, 16, 4, 43),
        named_end(12, 6, 12, 4, 44),
        named_end(13, 6, 8, 4, 45),
        named_end(14, 6, 4, 4, 46),
        named_end(15, 6, 0, 4, 47),
        named_end(16, 7, 29, 1, 48),
        named_end(17, 7, 31, 1, 49),
        named_end(18, 7, 30, 1, 50),
        named_end(19, 7, 0, 7, 51),
    ]
}

// Whether a name is one of the window's and isn't dead.
fn is_needed(goal: &Goal, name: u8) -> bool
    requires { name < 32 }
    ensures { result ≡ needed goal.now name }
{
    (name < goal.parameters || name >= 6) && goal.dead.bits & (1 << name) == 0
}

/// What the body of a rule is to leave: the locations that aren't dead, in the order of their names.
pub fn needed_ends(alloc: Global, goal: &Goal) -> Result<Vec<End>, NoMemory>
    ensures exact { IfOk result (λ ends. ends.items ≡ ends_of goal.now) }
    ensures each { IfOk result (λ ends. All IsEnd ends.items) }
{
    let table = named_ends();
    let mut ends = Vec::new(alloc);
    for n in 0..26 {
        if is_needed(goal, table[n].name) {
            ends.push(table[n].end)?;
        }
    }
    Ok(ends)
}

/// A jump on the condition under which the branch that ends a rule's window is taken; None where it ends in none.
pub fn take(body: &Body) -> Option<Op>
    ensures exact { result ≡ jump_of body.now.take }
    ensures profile { IsTake result }
{
    let condition = Condition::from_code(body.take?)?;
    Some(Op::Jcc { condition, rel: 0 })
}
