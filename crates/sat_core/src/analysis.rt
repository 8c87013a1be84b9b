//! What a conflict rests on: the literals back to its first unique implication point. They are only proposed here; whether they
//! lead to a conflict again is seen by assuming them.

use crate::order::Order;
use std::alloc::Global;
use watched_literals::{Levels, Literal, Propagator};
use word_kit::NoMemory;

/// Places of a trail that are marked, and how many of them belong to the last level.
#[derive(Drop)]
struct Marks {
    marked: Vec<bool>,
    root: usize,
    level: usize,
    open: usize,
}

impl Marks {
    /// Marks the places at which the literals of the clause became false, unless that was at the root.
    fn mark(&mut self, clause: &[Literal], propagator: &Propagator, order: &mut Order) {
        for literal in clause {
            if let Some(place) = propagator.place_of(literal.opposite()) {
                if place >= self.root && place < self.marked.len() && !self.marked[place] {
                    self.marked[place] = true;
                    order.bump(*literal);
                    if place >= self.level {
                        self.open = self.open.saturating_add(1);
                    }
                }
            }
        }
    }

    /// Marks what the literal at this place rests on, in its stead, where a clause made it true.
    fn resolve(&mut self, place: usize, propagator: &Propagator, order: &mut Order) {
        let reason = propagator.reason(place);
        if reason.is_empty() {
            return;
        }
        self.mark(reason, propagator, order);
        if let Some(mark) = self.marked.get_mut(place) {
            *mark = false;
            self.open = self.open.saturating_sub(1);
        }
    }

    /// The literals of the marked places.
    fn literals(&self, alloc: Global, propagator: &Propagator) -> Result<Vec<Literal>, NoMemory> {
        let mut literals = Vec::new(alloc);
        for (place, mark) in self.marked.as_slice().iter().enumerate() {
            if *mark {
                if let Some(literal) = propagator.literal(place) {
                    literals.push(literal)?;
                }
            }
        }
        Ok(literals)
    }
}

/// The literals of the trail that the last conflict rests on: of those of the last level only the last that all ways there pass
/// through, and of those between the root and it the ones that are needed beside it. No literals where no clause is false.
pub fn analyze(
    alloc: Global,
    levels: &Levels,
    order: &mut Order,
) -> Result<Vec<Literal>, NoMemory> {
    if !levels.is_failed {
        return Ok(Vec::new(alloc));
    }
    let propagator = &levels.propagator;
    let level = levels.starts.last().copied().unwrap_or(levels.root);
    let marked = vec![in alloc; false; propagator.len()]?;
    let end = marked.len();
    let mut marks = Marks {
        marked,
        root: levels.root,
        level,
        open: 0,
    };
    marks.mark(propagator.conflict(), propagator, order);
    for place in (level..end).rev() {
        if marks.open <= 1 {
            break;
        }
        if place < marks.marked.len() && marks.marked[place] {
            marks.resolve(place, propagator, order);
        }
    }
    marks.literals(alloc, propagator)
}
