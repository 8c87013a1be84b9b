//! The check of labels.

ghost use Rattle.std.specs.Prelude.{◌≡◌, ◌≤◌, ◌<◌, ℕ, IfOk, IfErr, MatchOption, Contains, length};
ghost use Rattle.plan_form.specs.Full.{IsFull};
ghost use Rattle.plan_form.specs.Plans.{IsValidPlan, Leads, last};
ghost use Rattle.plan_form.specs.Labels.{IsShaped, CertifyPlan, label_at, values_of};
ghost use Rattle.plan_form.specs.Keys.{IsIndex};
ghost use Rattle.plan_form.specs.Faults.{IsFaultOf, IsPassed, IsEarlier, IsMoveFault, IsOfferFault, IsFirstFault, IsFirstBad};

use crate::cost::plan_cost;
use crate::index::{index_in, map_indexes};
use crate::maps::map_behind;
use crate::order::order_of;
use crate::problem::{BadLabel, Labels, MovePrice, Offer, Plan, Problem, Step};
use ppc_isa::Map;

/// An edge that its labels don't obey, with its place in the order of edges.
#[derive(Clone, Copy)]
pub struct Fault {
    pub bad: BadLabel,
    pub order: u64,
}

// The label of a place and the index of a map.
fn label_of(problem: &Problem, labels: &Labels, place: u32, index: usize) -> u32
    requires places { 2 ≤ problem.now.places }
    requires place { place ≤ last problem.now }
    requires index { index < length problem.now.maps.items }
    requires shaped { IsShaped problem.now (values_of labels.now) }
    ensures { result ≡ label_at problem.now (values_of labels.now) place index }
{
    if place == problem.places - 1 {
        labels.values[place as usize][0]
    } else {
        labels.values[place as usize][index]
    }
}

// Whether an edge is not obeyed.
fn fault_of(
    problem: &Problem,
    labels: &Labels,
    indexes: &[u16],
    place: u32,
    from: &Map,
    step: Step,
    price: u32,
    end: u32,
    to: &Map,
) -> Option<Fault>
    requires full { IsFull problem.now }
    requires shaped { IsShaped problem.now (values_of labels.now) }
    requires indexes { IsIndex problem.now indexes.now }
    requires leads { Leads problem.now (record { place = place; map = from.now }) step price (record { place = end; map = to.now }) }
    requires from { Contains problem.now.maps.items from.now }
    requires to { Contains problem.now.maps.items to.now }
    requires place { place < last problem.now }
    requires end { end ≤ last problem.now }
    ensures { MatchOption result
        (IsPassed problem.now (values_of labels.now) (record { place = place; map = from.now }) price (record { place = end; map = to.now }))
        (λ fault. IsFaultOf problem.now (values_of labels.now) (record { place = place; map = from.now }) step price (record { place = end; map = to.now }) fault) }
{
    let index = index_in(problem, indexes, from);
    let label = label_of(problem, labels, place, index);
    let needed = label_of(problem, labels, end, index_in(problem, indexes, to));
    if needed as u64 <= label as u64 + price as u64 {
        return None;
    }
    let order = (512 * place as u64 + index as u64) * 0x2_0000_0000 + order_of(problem, step);
    let bad = BadLabel {
        place,
        map: index as u32,
        from: label,
        to: needed as u64,
        price,
    };
    Some(Fault { bad, order })
}

// The earlier of two faults.
fn earlier(first: Option<Fault>, other: Option<Fault>) -> Option<Fault>
    ensures { IsEarlier first other result }
{
    match (first, other) {
        (Some(fault), Some(late)) => {
            if late.order < fault.order {
                Some(late)
            } else {
                Some(fault)
            }
        }
        (None, late) => late,
        (Some(fault), None) => Some(fault),
    }
}

// The fault of a move.
fn move_fault(
    problem: &Problem,
    labels: &Labels,
    indexes: &[u16],
    item: &MovePrice,
) -> Option<Fault>
    requires full { IsFull problem.now }
    requires shaped { IsShaped problem.now (values_of labels.now) }
    requires indexes { IsIndex problem.now indexes.now }
    requires item { Contains problem.now.moves.items item.now }
    ensures { IsMoveFault problem.now (values_of labels.now) item.now result }
{
    fault_of(
        problem,
        labels,
        indexes,
        item.place,
        &item.map,
        Step::Go(item.step),
        item.price,
        item.place,
        &map_behind(&item.map, item.step),
    )
}

// The fault of an offer.
fn offer_fault(problem: &Problem, labels: &Labels, indexes: &[u16], item: &Offer) -> Option<Fault>
    requires full { IsFull problem.now }
    requires shaped { IsShaped problem.now (values_of labels.now) }
    requires indexes { IsIndex problem.now indexes.now }
    requires item { Contains problem.now.offers.items item.now }
    ensures { IsOfferFault problem.now (values_of labels.now) item.now result }
{
    fault_of(
        problem,
        labels,
        indexes,
        item.from,
        &item.map,
        Step::Lay(item.tile),
        item.price,
        item.to,
        &item.map,
    )
}

// The first edge that is not obeyed, in one pass over each table.
fn first_fault(problem: &Problem, labels: &Labels, indexes: &[u16]) -> Option<Fault>
    requires full { IsFull problem.now }
    requires shaped { IsShaped problem.now (values_of labels.now) }
    requires indexes { IsIndex problem.now indexes.now }
    ensures { IsFirstFault problem.now (values_of labels.now) result }
{
    let mut found: Option<Fault> = None;
    for item in problem.moves.as_slice() {
        found = earlier(found, move_fault(problem, labels, indexes, item));
    }
    for item in problem.offers.as_slice() {
        found = earlier(found, offer_fault(problem, labels, indexes, item));
    }
    found
}

/// Accepts labels that certify a plan: the start has label 0, no label of an edge's end is above the label
/// of its start and its price together, and the label of the last node is the plan's cost. It takes no
/// memory.
///
/// # Errors
/// Where the labels fail first: at the start, at the first edge by place, map and order of steps, or at the
/// end.
pub fn check_labels(problem: &Problem, plan: &Plan, labels: &Labels) -> Result<(), BadLabel>
    requires full { IsFull problem.now }
    requires plan { (cost : ℕ) × IsValidPlan problem.now plan.now.steps.items cost }
    requires shaped { IsShaped problem.now (values_of labels.now) }
    ensures certified { IfOk result (λ _. CertifyPlan problem.now plan.now.steps.items (values_of labels.now)) }
    ensures refused { IfErr result (λ _. ¬ CertifyPlan problem.now plan.now.steps.items (values_of labels.now)) }
    ensures first { IfErr result (λ bad. IsFirstBad problem.now plan.now.steps.items (values_of labels.now) bad) }
{
    let indexes = map_indexes(problem);
    let entry = index_in(problem, &indexes, &problem.entry);
    let start = label_of(problem, labels, 0, entry);
    if start != 0 {
        return Err(BadLabel {
            place: 0,
            map: entry as u32,
            from: start,
            to: 0,
            price: 0,
        });
    }
    if let Some(fault) = first_fault(problem, labels, &indexes) {
        return Err(fault.bad);
    }
    let last = problem.places - 1;
    let exit = index_in(problem, &indexes, &problem.exit);
    let end = label_of(problem, labels, last, exit);
    let Some(cost) = plan_cost(problem, plan) else {
        unreachable!()
    };
    if end as u64 == cost {
        return Ok(());
    }
    Err(BadLabel {
        place: last,
        map: exit as u32,
        from: end,
        to: cost,
        price: 0,
    })
}
