//! The cost of a plan.

ghost use Rattle.std.specs.Prelude.{◌≡◌, ◌≤◌, ◌<◌, ℕ, MatchOption, Contains, length};
ghost use Rattle.plan_form.specs.Full.{IsFull};
ghost use Rattle.plan_form.specs.Plans.{IsValidPlan};

use crate::maps::{map_behind, same_map, same_move};
use crate::problem::{MovePrice, Offer, Plan, Problem, Step, Tile};
use ppc_isa::Map;
use reg_map::Move;

// The price of a move at a place under a map, among these.
fn price_among(moves: &[MovePrice], place: u32, map: &Map, step: Move) -> Option<u32>
    ensures { MatchOption result
        ((price : ℕ) → ¬ Contains moves.now (record { place = place; map = map.now; step = step; price = price }))
        (λ price. Contains moves.now (record { place = place; map = map.now; step = step; price = price })) }
{
    for item in moves {
        if item.place == place && same_map(&item.map, map) && same_move(item.step, step) {
            return Some(item.price);
        }
    }
    None
}

// Where the moves of a place begin, if they stand in order of place: where the search begins.
fn first_move(moves: &[MovePrice], place: u32) -> usize
    ensures { result ≤ length moves.now }
{
    let mut low = 0;
    let mut high = moves.len();
    while low < high {
        let middle = low + (high - low) / 2;
        if moves[middle].place < place {
            low = middle + 1;
        } else {
            high = middle;
        }
    }
    low
}

/// The price of a move at a place under a map. It takes no memory.
pub fn move_price(moves: &[MovePrice], place: u32, map: &Map, step: Move) -> Option<u32>
    ensures { MatchOption result
        ((price : ℕ) → ¬ Contains moves.now (record { place = place; map = map.now; step = step; price = price }))
        (λ price. Contains moves.now (record { place = place; map = map.now; step = step; price = price })) }
{
    let begin = first_move(moves, place);
    match price_among(&moves[begin..], place, map, step) {
        Some(price) => Some(price),
        None => price_among(&moves[..begin], place, map, step),
    }
}

// The offer of a tile at a place under a map, among these.
fn offer_among(offers: &[Offer], place: u32, map: &Map, tile: Tile) -> Option<Offer>
    ensures { MatchOption result
        ((to price : ℕ) → ¬ Contains offers.now (record { from = place; to = to; map = map.now; tile = tile; price = price }))
        (λ offer. Contains offers.now offer × (offer ≡ record { from = place; to = offer.to; map = map.now; tile = tile; price = offer.price })) }
{
    for item in offers {
        if item.from == place && same_map(&item.map, map) && item.tile == tile {
            return Some(*item);
        }
    }
    None
}

// Where the offers from a place begin, if they stand in order of place: where the search begins.
fn first_offer(offers: &[Offer], place: u32) -> usize
    ensures { result ≤ length offers.now }
{
    let mut low = 0;
    let mut high = offers.len();
    while low < high {
        let middle = low + (high - low) / 2;
        if offers[middle].from < place {
            low = middle + 1;
        } else {
            high = middle;
        }
    }
    low
}

/// The offer of a tile at a place under a map. It takes no memory.
pub fn offer_of(offers: &[Offer], place: u32, map: &Map, tile: Tile) -> Option<Offer>
    ensures { MatchOption result
        ((to price : ℕ) → ¬ Contains offers.now (record { from = place; to = to; map = map.now; tile = tile; price = price }))
        (λ offer. Contains offers.now offer × (offer ≡ record { from = place; to = offer.to; map = map.now; tile = tile; price = offer.price })) }
{
    let begin = first_offer(offers, place);
    match offer_among(&offers[begin..], place, map, tile) {
        Some(offer) => Some(offer),
        None => offer_among(&offers[..begin], place, map, tile),
    }
}

/// The sum of the prices of a plan's steps, and None exactly where the plan isn't valid.
///
/// It takes no memory. Where the tables stand in order of place, each step is found among those of its
/// place.
pub fn plan_cost(problem: &Problem, plan: &Plan) -> Option<u64>
    requires { IsFull problem.now }
    ensures { MatchOption result
        ((cost : ℕ) → ¬ IsValidPlan problem.now plan.now.steps.items cost)
        (λ cost. IsValidPlan problem.now plan.now.steps.items cost) }
{
    let steps = plan.steps.as_slice();
    let mut place: u32 = 0;
    let mut map = problem.entry;
    let mut left: u32 = 6;
    let mut cost: u64 = 0;
    for step in steps {
        match *step {
            Step::Go(go) => {
                if left == 0 {
                    return None;
                }
                let Some(price) = move_price(problem.moves.as_slice(), place, &map, go) else {
                    return None;
                };
                map = map_behind(&map, go);
                left -= 1;
                cost += price as u64;
            }
            Step::Lay(tile) => {
                let Some(offer) = offer_of(problem.offers.as_slice(), place, &map, tile) else {
                    return None;
                };
                place = offer.to;
                left = 6;
                cost += offer.price as u64;
            }
        }
    }
    if place == problem.places - 1 && same_map(&map, &problem.exit) {
        Some(cost)
    } else {
        None
    }
}
