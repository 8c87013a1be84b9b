//! What lines of a plan text say.

ghost use Rattle.std.specs.Prelude.{◌≡◌, ◌≢◌, ◌↔◌, ◌<◌, ◌^◌, ◌++◌, ◌∷◌, [], ℕ, List, MatchOption, IfOk, IsTrue, map, decimal};
ghost use Rattle.machines.specs.Prelude.{IsMap};
ghost use Rattle.ppc_isa.specs.declared.map.Map.{Map as TheMap};
ghost use Rattle.line_text.specs.Lines.{line_of};
ghost use Rattle.plan_form.specs.Texts.{Item, Title as TitleItem, Head as HeadItem, Row as RowItem, End as EndItem, AreWrittenLabels, words_of};
ghost use Rattle.plan_form.specs.Machine.{IsItem};
ghost use Rattle.plan_form.specs.Said.{item_of};

use crate::fields::map_of;
use crate::problem::Step;
use crate::step_words::step_of;
use line_text::{is, word_of, words};
use outside::decimal;
use ppc_isa::Map;
use std::alloc::{AllocError, Global};

/// What a line of a plan text says.
#[derive(Drop)]
pub enum Line {
    Title,
    Head(u32, u32, Map, Map),
    Does(Step),
    Row(u32, Vec<u32>),
    End,
}

fn is_title(words: &[&[u8]]) -> bool
    ensures { IsTrue result ↔ (map (λ w. w.now) words.now ≡ words_of TitleItem) }
{
    match words {
        [name, number] => is(name, b"plan") && is(number, b"1"),
        _ => false,
    }
}

fn is_end(words: &[&[u8]]) -> bool
    ensures { IsTrue result ↔ (map (λ w. w.now) words.now ≡ words_of EndItem) }
{
    match words {
        [name] => is(name, b"end"),
        _ => false,
    }
}

fn head_of(words: &[&[u8]]) -> Option<(u32, u32, Map, Map)>
    ensures { MatchOption result
        ((a w : ℕ) (n x : TheMap) → a < 2 ^ 32 → w < 2 ^ 32 → IsMap n → IsMap x → map (λ w. w.now) words.now ≢ words_of (HeadItem a w n x))
        (λ r. IsMap r.2 × IsMap r.3 × (map (λ w. w.now) words.now ≡ words_of (HeadItem r.0 r.1 r.2 r.3))) }
{
    let [name, at, count, entry, exit] = words else {
        return None;
    };
    if !is(name, b"block") {
        return None;
    }
    let Some(at) = word_of(at) else {
        return None;
    };
    let Some(count) = decimal(count, u32::MAX as u64) else {
        return None;
    };
    let Some(entry) = map_of(entry) else {
        return None;
    };
    let Some(exit) = map_of(exit) else {
        return None;
    };
    Some((at, count as u32, entry, exit))
}

// The numbers that words write.
fn numbers_of(alloc: Global, words: &[&[u8]]) -> Result<Option<Vec<u32>>, AllocError>
    ensures { IfOk result (λ o. MatchOption o
        ((ns : List ℕ) → AreWrittenLabels ns → map (λ w. w.now) words.now ≢ map decimal ns)
        (λ v. AreWrittenLabels v.items × (map (λ w. w.now) words.now ≡ map decimal v.items))) }
{
    let mut numbers = Vec::new(alloc);
    for word in words {
        let Some(number) = decimal(word, u32::MAX as u64) else {
            return Ok(None);
        };
        numbers.push(number as u32)?;
    }
    Ok(Some(numbers))
}

fn row_of(alloc: Global, words: &[&[u8]]) -> Result<Option<(u32, Vec<u32>)>, AllocError>
    ensures { IfOk result (λ o. MatchOption o
        ((p : ℕ) (ns : List ℕ) → p < 2 ^ 32 → AreWrittenLabels ns → map (λ w. w.now) words.now ≢ words_of (RowItem p ns))
        (λ r. AreWrittenLabels r.1.items × (map (λ w. w.now) words.now ≡ words_of (RowItem r.0 r.1.items)))) }
{
    let [name, place, labels @ ..] = words else {
        return Ok(None);
    };
    if !is(name, b"at") {
        return Ok(None);
    }
    let Some(place) = decimal(place, u32::MAX as u64) else {
        return Ok(None);
    };
    let Some(labels) = numbers_of(alloc, labels)? else {
        return Ok(None);
    };
    Ok(Some((place as u32, labels)))
}

// What the words of a line say.
fn read_words(alloc: Global, words: &[&[u8]]) -> Result<Option<Line>, AllocError>
    ensures { IfOk result (λ o. MatchOption o
        ((x : Item) → IsItem x → map (λ w. w.now) words.now ≢ words_of x)
        (λ l. IsItem (item_of l) × (map (λ w. w.now) words.now ≡ words_of (item_of l)))) }
{
    if is_title(words) {
        return Ok(Some(Line::Title));
    }
    if let Some((at, count, entry, exit)) = head_of(words) {
        return Ok(Some(Line::Head(at, count, entry, exit)));
    }
    if let Some(step) = step_of(words) {
        return Ok(Some(Line::Does(step)));
    }
    if let Some((place, labels)) = row_of(alloc, words)? {
        return Ok(Some(Line::Row(place, labels)));
    }
    if is_end(words) {
        return Ok(Some(Line::End));
    }
    Ok(None)
}

/// What a line says, given without its line feed.
pub fn line_said(alloc: Global, line: &[u8]) -> Result<Option<Line>, AllocError>
    ensures { IfOk result (λ o. MatchOption o
        ((x : Item) → IsItem x → line.now ++ 10 ∷ [] ≢ line_of (words_of x))
        (λ l. IsItem (item_of l) × (line.now ++ 10 ∷ [] ≡ line_of (words_of (item_of l))))) }
{
    let words = words(alloc, line, b' ')?;
    Ok(read_words(alloc, &words)?)
}
