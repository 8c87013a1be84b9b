//! The literals of a clause.

ghost use Rattle.std.specs.Prelude.{◌≡◌, ◌≢◌, ◌<◌, ◌^◌, ◌↔◌, ◌++◌, ◌∷◌, [], ℕ, ℤ, List, MatchOption, IfOk, IsTrue, map, decimal, codes};
ghost use Rattle.std.specs.List.{AllByRecursion};
ghost use Rattle.word_kit.specs.Prelude.{IsLiteral, variable};
ghost use Rattle.rule_body.specs.Prelude.{AreRising};
ghost use Rattle.rule_form.specs.Words.{literal_word};
ghost use Rattle.rule_form.specs.Texts.{Clause, words_of};

use line_text::is;
use outside::decimal;
use std::alloc::{AllocError, Global};

fn variable_of(word: &[u8]) -> Option<u32>
    ensures { MatchOption result
        ((n : ℕ) → 0 < n → n < 2 ^ 31 → word.now ≢ decimal n)
        (λ n. (0 < n) × (n < 2 ^ 31) × (word.now ≡ decimal n)) }
{
    let Some(number) = decimal(word, i32::MAX as u64) else {
        return None;
    };
    if number == 0 {
        None
    } else {
        Some(number as u32)
    }
}

fn negated_of(word: &[u8]) -> Option<u32>
    ensures { MatchOption result
        ((n : ℕ) → 0 < n → n < 2 ^ 31 → word.now ≢ 45 ∷ decimal n)
        (λ n. (0 < n) × (n < 2 ^ 31) × (word.now ≡ 45 ∷ decimal n)) }
{
    let Some((first, digits)) = word.split_first() else {
        return None;
    };
    if *first != b'-' {
        return None;
    }
    variable_of(digits)
}

// The literal that a word writes.
fn literal_of(word: &[u8]) -> Option<i32>
    ensures { MatchOption result
        ((z : ℤ) → IsLiteral z → word.now ≢ literal_word z)
        (λ z. IsLiteral z × (word.now ≡ literal_word z)) }
{
    if let Some(variable) = variable_of(word) {
        return Some(variable as i32);
    }
    if let Some(variable) = negated_of(word) {
        return Some(-(variable as i32));
    }
    None
}

fn literals_of(alloc: Global, words: &[&[u8]]) -> Result<Option<Vec<i32>>, AllocError>
    ensures { IfOk result (λ o. MatchOption o
        ((zs : List ℤ) → AllByRecursion IsLiteral zs → map (λ w. w.now) words.now ≢ map literal_word zs)
        (λ v. AllByRecursion IsLiteral v.items × (map (λ w. w.now) words.now ≡ map literal_word v.items))) }
{
    let mut literals = Vec::new(alloc);
    for word in words {
        let Some(literal) = literal_of(word) else {
            return Ok(None);
        };
        literals.push(literal)?;
    }
    Ok(Some(literals))
}

// Whether the variables rise.
fn are_rising(literals: &[i32]) -> bool
    requires { AllByRecursion IsLiteral literals.now }
    ensures { IsTrue result ↔ AreRising 0 literals.now }
{
    let mut low = 0;
    for literal in literals {
        let variable = literal.unsigned_abs();
        if variable <= low {
            return false;
        }
        low = variable;
    }
    true
}

/// The literals of a clause line.
pub fn clause_of(alloc: Global, words: &[&[u8]]) -> Result<Option<Vec<i32>>, AllocError>
    ensures { IfOk result (λ o. MatchOption o
        ((zs : List ℤ) → AreRising 0 zs → map (λ w. w.now) words.now ≢ words_of (Clause zs))
        (λ v. AreRising 0 v.items × (map (λ w. w.now) words.now ≡ words_of (Clause v.items)))) }
{
    let [name, literals @ .., end] = words else {
        return Ok(None);
    };
    if !is(name, b"clause") || !is(end, b"0") {
        return Ok(None);
    }
    let Some(literals) = literals_of(alloc, literals)? else {
        return Ok(None);
    };
    if are_rising(&literals) {
        Ok(Some(literals))
    } else {
        Ok(None)
    }
}
