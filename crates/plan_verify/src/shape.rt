//! How many labels stand at each place.

ghost use Rattle.std.specs.Prelude.{◌≡◌, ◌↔◌, IsTrue, MatchOption, [], length, slice_index_or};
ghost use Rattle.plan_form.specs.Prelude.{IsFull, IsShaped, values_of};
ghost use Rattle.plan_verify.specs.Failures.{IsCounted, IsMiscounted};

use plan_form::{Labels, Problem};

// How many labels there are for a place; 0 where it has no list.
fn label_count(labels: &Labels, place: u32) -> usize
    ensures { result ≡ length (slice_index_or (values_of labels.now) place []) }
{
    match labels.values.as_slice().get(place as usize) {
        None => 0,
        Some(row) => row.len(),
    }
}

// Whether a place has as many labels as it needs.
fn is_counted(problem: &Problem, labels: &Labels, place: u32) -> bool
    requires { IsFull problem.now }
    ensures { IsTrue result ↔ IsCounted problem.now (values_of labels.now) place }
{
    let last = problem.places - 1;
    let count = label_count(labels, place);
    if place < last {
        return count == problem.maps.len();
    }
    if place == last {
        return count == 1;
    }
    labels.values.len() <= place as usize
}

/// The first place whose number of labels is wrong, and None exactly where each place has one label per node, and there is
/// no list past the last place.
pub fn miscounted_at(problem: &Problem, labels: &Labels) -> Option<u32>
    requires { IsFull problem.now }
    ensures { MatchOption result (IsShaped problem.now (values_of labels.now)) (λ place. IsMiscounted problem.now (values_of labels.now) place) }
{
    for place in 0..problem.places + 1 {
        if !is_counted(problem, labels, place) {
            return Some(place);
        }
    }
    None
}
