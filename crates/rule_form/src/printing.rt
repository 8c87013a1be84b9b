//! From rules to text.

ghost use Rattle.std.specs.Prelude.{◌≡◌, ◌≤◌, ◌++◌, ◌∷◌, [], OnOk, IfOk, map, List, ℤ, codes, if◌then◌else◌};
ghost use Rattle.std.specs.List.{AllByRecursion, flat_map};
ghost use Rattle.ia_codec.specs.Prelude.{IsInProfile};
ghost use Rattle.line_text.specs.Lines.{line_of};
ghost use Rattle.rule_body.specs.Prelude.{guests_of, template_of, AreRules, IsRule};
ghost use Rattle.rule_form.specs.Words.{literal_word};
ghost use Rattle.rule_form.specs.Texts.{GuestLine, At, Dead, Host, Take, Clause, End, words_of, front_of, written, opened, text_of};
ghost use Rattle.rule_form.specs.Machine.{IsTakeWord};

use crate::writing::{put_dead, put_hole, put_literal, put_slots, put_take};
use ia_codec::encode;
use line_text::put_hexadecimal;
use rule_body::{Goal, Guest, HostLine, Rule, guest_at};
use std::alloc::{AllocError, Global};
use word_kit::{Clause as Literals, NoMemory};

fn freedom(free: bool) -> &'static [u8]
    ensures { result.now ≡ (if free then codes "any" else codes "lit") }
{
    if free { b"any" } else { b"lit" }
}

fn put_guest(out: &mut Vec<u8>, guest: Guest) -> Result<(), AllocError>
    ensures { OnOk result (out.new.items ≡ out.old.items ++ line_of (words_of (GuestLine guest))) }
{
    out.extend_from_slice(b"guest ")?;
    put_hexadecimal(out, &guest.word.to_be_bytes())?;
    out.push(b' ')?;
    out.extend_from_slice(freedom(guest.free))?;
    out.push(b'\n')?;
    Ok(())
}

fn put_at(out: &mut Vec<u8>, slots: &[bool]) -> Result<(), AllocError>
    ensures { OnOk result (out.new.items ≡ out.old.items ++ line_of (words_of (At slots.now))) }
{
    out.extend_from_slice(b"at ")?;
    put_slots(out, slots)?;
    out.push(b'\n')?;
    Ok(())
}

fn put_dead_line(out: &mut Vec<u8>, bits: u32) -> Result<(), AllocError>
    ensures { OnOk result (out.new.items ≡ out.old.items ++ line_of (words_of (Dead bits))) }
{
    out.extend_from_slice(b"dead ")?;
    put_dead(out, bits)?;
    out.push(b'\n')?;
    Ok(())
}

fn put_host(out: &mut Vec<u8>, line: &HostLine) -> Result<(), AllocError>
    requires { IsInProfile line.now.op }
    ensures { OnOk result (out.new.items ≡ out.old.items ++ line_of (words_of (Host line.now))) }
{
    let spelled = encode(&line.op);
    out.extend_from_slice(b"host ")?;
    put_hexadecimal(out, &spelled.bytes[..spelled.len as usize])?;
    out.push(b' ')?;
    put_hole(out, line.hole)?;
    out.push(b'\n')?;
    Ok(())
}

fn put_take_line(out: &mut Vec<u8>, take: Option<u8>) -> Result<(), AllocError>
    requires { IsTakeWord take }
    ensures { OnOk result (out.new.items ≡ out.old.items ++ line_of (words_of (Take take))) }
{
    out.extend_from_slice(b"take ")?;
    put_take(out, take)?;
    out.push(b'\n')?;
    Ok(())
}

fn put_literals(out: &mut Vec<u8>, literals: &[i32]) -> Result<(), AllocError>
    ensures { OnOk result (out.new.items ≡ out.old.items ++ flat_map (λ z. 32 ∷ literal_word z) literals.now) }
{
    for literal in literals {
        out.push(b' ')?;
        put_literal(out, *literal)?;
    }
    Ok(())
}

fn put_clause(out: &mut Vec<u8>, literals: &[i32]) -> Result<(), AllocError>
    ensures { OnOk result (out.new.items ≡ out.old.items ++ line_of (words_of (Clause literals.now))) }
{
    out.extend_from_slice(b"clause")?;
    put_literals(out, literals)?;
    out.extend_from_slice(b" 0\n")?;
    Ok(())
}

fn put_guests(out: &mut Vec<u8>, goal: &Goal) -> Result<(), AllocError>
    requires { goal.now.count ≤ 3 }
    ensures { OnOk result (out.new.items ≡ out.old.items ++ flat_map (λ x. line_of (words_of x)) (map GuestLine (guests_of goal.now))) }
{
    let mut place = 0;
    while let Some(guest) = guest_at(goal, place) {
        put_guest(out, guest)?;
        place += 1;
    }
    Ok(())
}

fn put_hosts(out: &mut Vec<u8>, lines: &[HostLine]) -> Result<(), AllocError>
    requires { AllByRecursion (λ line. IsInProfile line.op) lines.now }
    ensures { OnOk result (out.new.items ≡ out.old.items ++ flat_map (λ x. line_of (words_of x)) (map Host lines.now)) }
{
    for line in lines {
        put_host(out, line)?;
    }
    Ok(())
}

fn put_clauses(out: &mut Vec<u8>, clauses: &[Literals]) -> Result<(), AllocError>
    ensures { OnOk result (out.new.items ≡ out.old.items ++ flat_map (λ x. line_of (words_of x)) (map Clause clauses.now)) }
{
    for clause in clauses {
        put_clause(out, clause.as_slice())?;
    }
    Ok(())
}

// The lines before those of the body.
fn put_goal(out: &mut Vec<u8>, goal: &Goal) -> Result<(), AllocError>
    requires count { goal.now.count ≤ 3 }
    requires parameters { goal.now.parameters ≤ 6 }
    ensures { OnOk result (out.new.items ≡ out.old.items ++ flat_map (λ x. line_of (words_of x)) (front_of (template_of goal.now))) }
{
    out.extend_from_slice(b"rule\n")?;
    put_guests(out, goal)?;
    put_at(out, &goal.slots[..goal.parameters as usize])?;
    put_dead_line(out, goal.dead.bits)
}

fn put_rule(out: &mut Vec<u8>, rule: &Rule) -> Result<(), AllocError>
    requires { IsRule rule.now }
    ensures { OnOk result (out.new.items ≡ out.old.items ++ flat_map (λ x. line_of (words_of x)) (opened (written rule.now) ++ End ∷ [])) }
{
    put_goal(out, &rule.goal)?;
    put_hosts(out, &rule.body.lines[..rule.body.count as usize])?;
    put_take_line(out, rule.body.take)?;
    put_clauses(out, rule.log.clauses.as_slice())?;
    out.extend_from_slice(b"end\n")?;
    Ok(())
}

/// The one text of the rules.
pub fn print(alloc: Global, rules: &[Rule]) -> Result<Vec<u8>, NoMemory>
    requires { AreRules rules.now }
    ensures { IfOk result (λ v. v.items ≡ text_of (map written rules.now)) }
{
    let mut out = Vec::new(alloc);
    out.extend_from_slice(b"rules 1\n")?;
    for rule in rules {
        put_rule(&mut out, rule)?;
    }
    Ok(out)
}
