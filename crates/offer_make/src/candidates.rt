//! The GPRs that a block's maps may hold.

ghost use Rattle.std.specs.Prelude.{◌≡◌, ◌≢◌, ◌<◌, ◌≤◌, ◌-◌, ◌++◌, ◌↔◌, IsTrue, IfOk, OnOk, All, AllPairs, Contains, ℕ, ◌∷◌, [], length, filter, slice_index_or, ◌==◌, take, false};
ghost use Rattle.std.specs.List.{range_with_len, list_any};
ghost use Rattle.machines.specs.Prelude.{IsMap, IsHeld};
ghost use Rattle.reg_map.specs.Place.{IsEmpty};
ghost use Rattle.plan_form.specs.Prelude.{IsMapOver};
ghost use Rattle.offer_make.specs.Candidates.{IsCount, AreInOrderOfUse, AreCandidates, held_by, held, firsts};

use crate::words::use_count;
use ppc_isa::Map;
use std::alloc::Global;
use word_kit::NoMemory;

// How many of the words use each GPR.
fn use_counts(words: &[u32]) -> [usize; 32]
    ensures counts { (g : ℕ) → g < 32 → IsCount words.now g (slice_index_or result g 0) }
    ensures within { (g : ℕ) → g < 32 → slice_index_or result g 0 ≤ length words.now }
    ensures len { length result ≡ 32 }
{
    let mut counts = [0; 32];
    for gpr in 0..32 {
        counts[gpr] = use_count(words, gpr as u8);
    }
    counts
}

// The GPRs that so many words use.
fn push_used(counts: &[usize], times: usize, used: &mut Vec<u8>) -> Result<(), NoMemory>
    requires { length counts.now ≤ 32 }
    ensures { OnOk result (used.new.items ≡ used.old.items ++ filter (λ g. slice_index_or counts.now g 0 == times) (range_with_len 0 (length counts.now))) }
{
    for gpr in 0..counts.len() {
        if counts[gpr] == times {
            used.push(gpr as u8)?;
        }
    }
    Ok(())
}

// The GPRs that the words use, in order of use.
fn in_order_of_use(alloc: Global, words: &[u32]) -> Result<Vec<u8>, NoMemory>
    requires { length words.now ≤ 64 }
    ensures { IfOk result (λ used. AreInOrderOfUse words.now used.items) }
{
    let counts = use_counts(words);
    let mut used = Vec::new(alloc);
    for fewer in 0..64 {
        push_used(&counts, 64 - fewer, &mut used)?;
    }
    Ok(used)
}

// The GPRs behind those that a slot holds.
fn push_held(gprs: &mut Vec<u8>, content: Option<u8>) -> Result<(), NoMemory>
    ensures { OnOk result (gprs.new.items ≡ gprs.old.items ++ held content) }
{
    if let Some(gpr) = content {
        gprs.push(gpr)?;
    }
    Ok(())
}

// The GPRs of a map, in the order of its slots, behind others.
fn push_map(gprs: &mut Vec<u8>, map: &Map) -> Result<(), NoMemory>
    ensures { OnOk result (gprs.new.items ≡ gprs.old.items ++ held_by map.now) }
{
    push_held(gprs, map.ebx)?;
    push_held(gprs, map.esi)?;
    push_held(gprs, map.edi)
}

// Whether the GPR is one of these.
fn is_among(gprs: &[u8], gpr: u8) -> bool
    ensures { result ≡ list_any (λ h. h == gpr) gprs.now }
{
    gprs.contains(&gpr)
}

// The first six of these GPRs, each once.
fn first_six(alloc: Global, gprs: &[u8]) -> Result<Vec<u8>, NoMemory>
    ensures { IfOk result (λ six. six.items ≡ take 6 (firsts gprs.now)) }
{
    let mut six = Vec::new(alloc);
    for gpr in gprs {
        if six.len() < 6 && !is_among(six.as_slice(), *gpr) {
            six.push(*gpr)?;
        }
    }
    Ok(six)
}

/// The candidates of a block: the GPRs of its entry map and of its exit map in the order of the slots, then those that its
/// words use, by how many words do, then by number; six at most. A word that stands alone has none.
pub fn candidates(
    alloc: Global,
    words: &[u32],
    entry: &Map,
    exit: &Map,
    leader: bool,
) -> Result<Vec<u8>, NoMemory>
    requires short { length words.now ≤ 64 }
    requires entry { IsMap entry.now }
    requires exit { IsMap exit.now }
    requires alone { leader ≡ false → IsEmpty entry.now × IsEmpty exit.now }
    ensures candidates { IfOk result (λ six. AreCandidates words.now entry.now exit.now leader six.items) }
    ensures few { IfOk result (λ six. length six.items ≤ 6) }
    ensures registers { IfOk result (λ six. All (λ g. g < 32) six.items) }
    ensures distinct { IfOk result (λ six. AllPairs (λ g h. g ≢ h) six.items) }
    ensures entry { IfOk result (λ six. IsMapOver six.items entry.now) }
    ensures exit { IfOk result (λ six. IsMapOver six.items exit.now) }
{
    if !leader {
        return Ok(Vec::new(alloc));
    }
    let mut gprs = Vec::new(alloc);
    push_map(&mut gprs, entry)?;
    push_map(&mut gprs, exit)?;
    let used = in_order_of_use(alloc, words)?;
    gprs.extend_from_slice(used.as_slice())?;
    let six = first_six(alloc, gprs.as_slice())?;
    Ok(six)
}
