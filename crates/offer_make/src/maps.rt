//! The maps over some candidates.

ghost use Rattle.std.specs.Prelude.{◌≡◌, ◌≢◌, ◌≤◌, ◌<◌, ◌↔◌, IsTrue, IfOk, MatchOption, All, AllPairs, length};
ghost use Rattle.machines.specs.Prelude.{Map as MapValue};
ghost use Rattle.plan_form.specs.Prelude.{IsMapOver, map_number};
ghost use Rattle.offer_make.specs.Maps.{content_of as nth_content, AreApart, AreMapsOver};

use ppc_isa::Map;
use std::alloc::Global;
use word_kit::NoMemory;

// The content of a slot by its number: 0 is empty, n the candidate at n - 1.
fn content(candidates: &[u8], number: usize) -> Option<u8>
    requires { number ≤ length candidates.now }
    ensures { result ≡ nth_content candidates.now number }
{
    if number == 0 {
        None
    } else {
        Some(candidates[number - 1])
    }
}

// Whether two slots don't hold one GPR.
fn apart(first: Option<u8>, other: Option<u8>) -> bool
    ensures { IsTrue result ↔ AreApart first other }
{
    match (first, other) {
        (Some(gpr), Some(second)) => gpr != second,
        _ => true,
    }
}

// The map of a number, if it is one.
fn map_of(candidates: &[u8], number: usize) -> Option<Map>
    requires number { number < 343 }
    requires few { length candidates.now ≤ 6 }
    requires registers { All (λ g. g < 32) candidates.now }
    requires distinct { AllPairs (λ g h. g ≢ h) candidates.now }
    ensures { MatchOption result
        ((m : MapValue) → IsMapOver candidates.now m → map_number candidates.now m ≢ number)
        (λ m. IsMapOver candidates.now m × (map_number candidates.now m ≡ number)) }
{
    let count = candidates.len();
    let (x, y, z) = (number / 49, number / 7 % 7, number % 7);
    if x > count || y > count || z > count {
        return None;
    }
    let ebx = content(candidates, x);
    let esi = content(candidates, y);
    let edi = content(candidates, z);
    if apart(ebx, esi) && apart(ebx, edi) && apart(esi, edi) {
        Some(Map { ebx, esi, edi })
    } else {
        None
    }
}

/// All maps over at most six candidates, ordered by content of ebx, then esi, then edi, an empty slot first,
/// then in the order of the candidates.
pub fn maps_over(alloc: Global, candidates: &[u8]) -> Result<Vec<Map>, NoMemory>
    requires few { length candidates.now ≤ 6 }
    requires registers { All (λ g. g < 32) candidates.now }
    requires distinct { AllPairs (λ g h. g ≢ h) candidates.now }
    ensures { IfOk result (λ maps. AreMapsOver candidates.now maps.items) }
{
    let mut maps = Vec::new(alloc);
    for number in 0..343 {
        if let Some(map) = map_of(candidates, number) {
            maps.push(map)?;
        }
    }
    Ok(maps)
}
