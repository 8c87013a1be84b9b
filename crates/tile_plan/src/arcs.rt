//! The edges of a problem by place, between maps by their indexes.

ghost use Rattle.std.specs.Prelude.{◌≡◌, ◌<◌, IfOk, OnOk, Contains, length, map};
ghost use Rattle.plan_form.specs.Prelude.{IsFull, IsIndex};
ghost use Rattle.tile_plan.specs.Arcs.{IsMoveArc, IsOfferArc, AreAllArcs, AreSoFar, IsPushed};

use plan_form::{MovePrice, Offer, Problem, Step, index_in, map_behind};
use std::alloc::Global;
use word_kit::NoMemory;

/// An edge from a place: its step and price, the indexes of its maps, and the place that it leads to.
#[derive(Clone, Copy)]
pub struct Arc {
    pub from: usize,
    pub step: Step,
    pub price: u32,
    pub place: u32,
    pub to: usize,
}

// The edge of a move.
fn move_arc(problem: &Problem, indexes: &[u16], item: &MovePrice) -> Arc
    requires full { IsFull problem.now }
    requires indexes { IsIndex problem.now indexes.now }
    requires item { Contains problem.now.moves.items item.now }
    ensures { IsMoveArc problem.now item.now result }
{
    Arc {
        from: index_in(problem, indexes, &item.map),
        step: Step::Go(item.step),
        price: item.price,
        place: item.place,
        to: index_in(problem, indexes, &map_behind(&item.map, item.step)),
    }
}

// The edge of an offer.
fn offer_arc(problem: &Problem, indexes: &[u16], item: &Offer) -> Arc
    requires full { IsFull problem.now }
    requires indexes { IsIndex problem.now indexes.now }
    requires item { Contains problem.now.offers.items item.now }
    ensures { IsOfferArc problem.now item.now result }
{
    let index = index_in(problem, indexes, &item.map);
    Arc {
        from: index,
        step: Step::Lay(item.tile),
        price: item.price,
        place: item.to,
        to: index,
    }
}

// One more edge from a place.
fn push_arc(arcs: &mut Vec<Vec<Arc>>, place: usize, arc: Arc) -> Result<(), NoMemory>
    requires { place < length arcs.old.items }
    ensures { OnOk result (IsPushed (map (λ arcs. arcs.items) arcs.old.items) (map (λ arcs. arcs.items) arcs.new.items) place arc) }
{
    arcs[place].push(arc)?;
    Ok(())
}

// For each place a list of edges, empty yet.
fn no_arcs(alloc: Global, problem: &Problem) -> Result<Vec<Vec<Arc>>, NoMemory>
    ensures { IfOk result (λ arcs. AreSoFar problem.now 0 0 (map (λ arcs. arcs.items) arcs.items)) }
{
    let mut arcs = Vec::new(alloc);
    for _ in 0..problem.places {
        arcs.push(Vec::new(alloc))?;
    }
    Ok(arcs)
}

// The edges of all moves, in one pass.
fn add_moves(problem: &Problem, indexes: &[u16], arcs: &mut Vec<Vec<Arc>>) -> Result<(), NoMemory>
    requires full { IsFull problem.now }
    requires indexes { IsIndex problem.now indexes.now }
    requires arcs { AreSoFar problem.now 0 0 (map (λ arcs. arcs.items) arcs.old.items) }
    ensures { OnOk result (AreSoFar problem.now (length problem.now.moves.items) 0 (map (λ arcs. arcs.items) arcs.new.items)) }
{
    for item in problem.moves.as_slice() {
        push_arc(arcs, item.place as usize, move_arc(problem, indexes, item))?;
    }
    Ok(())
}

// The edges of all offers, in one pass.
fn add_offers(problem: &Problem, indexes: &[u16], arcs: &mut Vec<Vec<Arc>>) -> Result<(), NoMemory>
    requires full { IsFull problem.now }
    requires indexes { IsIndex problem.now indexes.now }
    requires arcs { AreSoFar problem.now (length problem.now.moves.items) 0 (map (λ arcs. arcs.items) arcs.old.items) }
    ensures { OnOk result (AreSoFar problem.now (length problem.now.moves.items) (length problem.now.offers.items) (map (λ arcs. arcs.items) arcs.new.items)) }
{
    for item in problem.offers.as_slice() {
        push_arc(arcs, item.from as usize, offer_arc(problem, indexes, item))?;
    }
    Ok(())
}

/// The edges from each place, whatever the order of the tables.
pub fn all_arcs(
    alloc: Global,
    problem: &Problem,
    indexes: &[u16],
) -> Result<Vec<Vec<Arc>>, NoMemory>
    requires full { IsFull problem.now }
    requires indexes { IsIndex problem.now indexes.now }
    ensures { IfOk result (λ arcs. AreAllArcs problem.now (map (λ arcs. arcs.items) arcs.items)) }
{
    let mut arcs = no_arcs(alloc, problem)?;
    add_moves(problem, indexes, &mut arcs)?;
    add_offers(problem, indexes, &mut arcs)?;
    Ok(arcs)
}
