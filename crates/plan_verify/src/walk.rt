//! How far the steps of a plan lead.

ghost use Rattle.std.specs.Prelude.{◌≡◌, ◌≤◌, ℕ, MatchOption};
ghost use Rattle.plan_form.specs.Prelude.{IsFull, IsValidPlan, Leads, Leaves, entry_node};
ghost use Rattle.plan_verify.specs.Failures.{LeadsNowhere, Sticks};

use plan_form::{Plan, Problem, Step, map_behind, move_price, offer_of, same_map};
use ppc_isa::Map;

// Where a walk stands, and how many moves may follow in a row.
#[derive(Clone, Copy)]
struct Stand {
    place: u32,
    map: Map,
    left: u32,
}

// Where a step leads, if it leads anywhere.
fn behind(problem: &Problem, stand: &Stand, step: Step) -> Option<Stand>
    ensures { MatchOption result
        (LeadsNowhere problem.now stand.now.left (record { place = stand.now.place; map = stand.now.map }) step)
        (λ v. ((price : ℕ) × Leads problem.now (record { place = stand.now.place; map = stand.now.map }) step price (record { place = v.place; map = v.map }))
        × Leaves stand.now.left step v.left) }
{
    match step {
        Step::Go(go) => {
            if stand.left == 0 {
                return None;
            }
            match move_price(problem.moves.as_slice(), stand.place, &stand.map, go) {
                None => None,
                Some(_) => Some(Stand {
                    place: stand.place,
                    map: map_behind(&stand.map, go),
                    left: stand.left - 1,
                }),
            }
        }
        Step::Lay(tile) => match offer_of(
            problem.offers.as_slice(),
            stand.place,
            &stand.map,
            tile,
        ) {
            None => None,
            Some(offer) => Some(Stand {
                place: offer.to,
                map: stand.map,
                left: 6,
            }),
        },
    }
}

/// The place where the first step starts that leads nowhere; where all lead on and stop before the last place, or under another
/// map, the place where they stop. None exactly where the plan is valid.
pub fn sticks_at(problem: &Problem, plan: &Plan) -> Option<u32>
    requires { IsFull problem.now }
    ensures { MatchOption result
        ((cost : ℕ) × IsValidPlan problem.now plan.now.steps.items cost)
        (λ place. Sticks problem.now 6 (entry_node problem.now) plan.now.steps.items place) }
{
    let steps = plan.steps.as_slice();
    let mut stand = Stand {
        place: 0,
        map: problem.entry,
        left: 6,
    };
    for step in steps {
        let Some(next) = behind(problem, &stand, *step) else {
            return Some(stand.place);
        };
        stand = next;
    }
    if stand.place == problem.places - 1 && same_map(&stand.map, &problem.exit) {
        None
    } else {
        Some(stand.place)
    }
}
