//! What lines say.

ghost use Rattle.std.specs.Prelude.{◌≡◌, ◌≢◌, ◌<◌, ◌≤◌, ◌^◌, ◌↔◌, ◌++◌, ◌∷◌, [], ℕ, ℤ, Bool, List, Option, MatchOption, IfOk, IsTrue, length, map, take};
ghost use Rattle.ia_codec.specs.Prelude.{IsInProfile};
ghost use Rattle.line_text.specs.Lines.{line_of};
ghost use Rattle.rule_body.specs.declared.goal.Guest.{Guest as TheGuest};
ghost use Rattle.rule_body.specs.declared.line.HostLine.{HostLine as TheLine};
ghost use Rattle.rule_form.specs.Texts.{Item, Title as TitleItem, Open as OpenItem, GuestLine, At as AtItem, Dead as DeadItem, Host as HostItem, Take as TakeItem, Clause as ClauseItem, End as EndItem, words_of};
ghost use Rattle.rule_form.specs.Machine.{IsHoleWord, IsTakeWord, IsItem};
ghost use Rattle.rule_form.specs.Slots.{AreSlots};
ghost use Rattle.rule_form.specs.Said.{item_of, IsLine};

use crate::fields::{Slots, freedom_of, hole_of, op_of, slots_of, take_of};
use crate::literals::clause_of;
use crate::names::dead_of;
use line_text::{is, word_of, words};
use rule_body::{Guest, HostLine};
use std::alloc::{AllocError, Global};

/// What a line of a rule text says.
#[derive(Drop)]
pub enum Line {
    Title,
    Open,
    Guest(Guest),
    At(Slots),
    Dead(u32),
    Host(HostLine),
    Take(Option<u8>),
    Clause(Vec<i32>),
    End,
}

fn is_title(words: &[&[u8]]) -> bool
    ensures { IsTrue result ↔ (map (λ w. w.now) words.now ≡ words_of TitleItem) }
{
    match words {
        [name, number] => is(name, b"rules") && is(number, b"1"),
        _ => false,
    }
}

fn is_open(words: &[&[u8]]) -> bool
    ensures { IsTrue result ↔ (map (λ w. w.now) words.now ≡ words_of OpenItem) }
{
    match words {
        [name] => is(name, b"rule"),
        _ => false,
    }
}

fn is_end(words: &[&[u8]]) -> bool
    ensures { IsTrue result ↔ (map (λ w. w.now) words.now ≡ words_of EndItem) }
{
    match words {
        [name] => is(name, b"end"),
        _ => false,
    }
}

fn guest_of(words: &[&[u8]]) -> Option<Guest>
    ensures { MatchOption result
        ((g : TheGuest) → g.word < 2 ^ 32 → map (λ w. w.now) words.now ≢ words_of (GuestLine g))
        (λ g. map (λ w. w.now) words.now ≡ words_of (GuestLine g)) }
{
    let [name, word, free] = words else {
        return None;
    };
    if !is(name, b"guest") {
        return None;
    }
    let Some(word) = word_of(word) else {
        return None;
    };
    let Some(free) = freedom_of(free) else {
        return None;
    };
    Some(Guest { word, free })
}

fn at_of(words: &[&[u8]]) -> Option<Slots>
    ensures { MatchOption result
        ((s : List Bool) → length s ≤ 6 → map (λ w. w.now) words.now ≢ words_of (AtItem s))
        (λ s. AreSlots s × (map (λ w. w.now) words.now ≡ words_of (AtItem (take s.count s.slots)))) }
{
    let [name, slots] = words else {
        return None;
    };
    if !is(name, b"at") {
        return None;
    }
    slots_of(slots)
}

fn dead_in(alloc: Global, words: &[&[u8]]) -> Result<Option<u32>, AllocError>
    ensures { IfOk result (λ o. MatchOption o
        ((b : ℕ) → b < 2 ^ 20 → map (λ w. w.now) words.now ≢ words_of (DeadItem b))
        (λ b. (b < 2 ^ 20) × (map (λ w. w.now) words.now ≡ words_of (DeadItem b)))) }
{
    let [name, dead] = words else {
        return Ok(None);
    };
    if !is(name, b"dead") {
        return Ok(None);
    }
    dead_of(alloc, dead)
}

fn host_of(words: &[&[u8]]) -> Option<HostLine>
    ensures { MatchOption result
        ((l : TheLine) → IsInProfile l.op → IsHoleWord l.hole → map (λ w. w.now) words.now ≢ words_of (HostItem l))
        (λ l. IsInProfile l.op × IsHoleWord l.hole × (map (λ w. w.now) words.now ≡ words_of (HostItem l))) }
{
    let [name, op, hole] = words else {
        return None;
    };
    if !is(name, b"host") {
        return None;
    }
    let Some(op) = op_of(op) else {
        return None;
    };
    let Some(hole) = hole_of(hole) else {
        return None;
    };
    Some(HostLine { op, hole })
}

fn take_in(words: &[&[u8]]) -> Option<Option<u8>>
    ensures { MatchOption result
        ((o : Option ℕ) → IsTakeWord o → map (λ w. w.now) words.now ≢ words_of (TakeItem o))
        (λ o. IsTakeWord o × (map (λ w. w.now) words.now ≡ words_of (TakeItem o))) }
{
    let [name, condition] = words else {
        return None;
    };
    if !is(name, b"take") {
        return None;
    }
    take_of(condition)
}

// What the words of a line say, if it is one of a rule's clauses or dead names.
fn read_long(alloc: Global, words: &[&[u8]]) -> Result<Option<Line>, AllocError>
    ensures { IfOk result (λ o. MatchOption o
        (((zs : List ℤ) → IsItem (ClauseItem zs) → map (λ w. w.now) words.now ≢ words_of (ClauseItem zs)) × ((b : ℕ) → IsItem (DeadItem b) → map (λ w. w.now) words.now ≢ words_of (DeadItem b)))
        (λ l. IsLine l × IsItem (item_of l) × (map (λ w. w.now) words.now ≡ words_of (item_of l)))) }
{
    if let Some(literals) = clause_of(alloc, words)? {
        return Ok(Some(Line::Clause(literals)));
    }
    if let Some(bits) = dead_in(alloc, words)? {
        return Ok(Some(Line::Dead(bits)));
    }
    Ok(None)
}

// What the words of a line say.
fn read(alloc: Global, words: &[&[u8]]) -> Result<Option<Line>, AllocError>
    ensures { IfOk result (λ o. MatchOption o
        ((x : Item) → IsItem x → map (λ w. w.now) words.now ≢ words_of x)
        (λ l. IsLine l × IsItem (item_of l) × (map (λ w. w.now) words.now ≡ words_of (item_of l)))) }
{
    if let Some(line) = read_long(alloc, words)? {
        return Ok(Some(line));
    }
    if let Some(guest) = guest_of(words) {
        return Ok(Some(Line::Guest(guest)));
    }
    if let Some(slots) = at_of(words) {
        return Ok(Some(Line::At(slots)));
    }
    if let Some(line) = host_of(words) {
        return Ok(Some(Line::Host(line)));
    }
    if let Some(condition) = take_in(words) {
        return Ok(Some(Line::Take(condition)));
    }
    if is_open(words) {
        return Ok(Some(Line::Open));
    }
    if is_title(words) {
        return Ok(Some(Line::Title));
    }
    if is_end(words) {
        return Ok(Some(Line::End));
    }
    Ok(None)
}

/// What a line says, given without its line feed.
pub fn line_said(alloc: Global, line: &[u8]) -> Result<Option<Line>, AllocError>
    ensures { IfOk result (λ o. MatchOption o
        ((x : Item) → IsItem x → line.now ++ 10 ∷ [] ≢ line_of (words_of x))
        (λ l. IsLine l × IsItem (item_of l) × (line.now ++ 10 ∷ [] ≡ line_of (words_of (item_of l))))) }
{
    let words = words(alloc, line, b' ')?;
    Ok(read(alloc, &words)?)
}
