//! The least weights to the last node, by place, moves left and map.

ghost use Rattle.std.specs.Prelude.{◌≡◌, ◌+◌, ◌-◌, ◌*◌, ◌≤◌, ◌<◌, IfOk, length, map, [], slice_index_or};
ghost use Rattle.plan_form.specs.Prelude.{IsFull};
ghost use Rattle.tile_plan.specs.Arcs.{IsArc, AreArcs, AreAllArcs};
ghost use Rattle.tile_plan.specs.Least.{IsRow, IsTable, IsFilled, IsBeyond, IsEndWeight, AreEndWeights, weight_limit};

use crate::arcs::Arc;
use plan_form::{Problem, Step, same_map};
use ppc_isa::Map;
use std::alloc::Global;
use word_kit::NoMemory;

/// The weight where no walk leads to the last node.
pub const NEVER: u32 = 0xFFFF_FFFF;

/// A weight of the table.
pub fn weight_at(table: &Vec<Vec<u32>>, row: usize, index: usize) -> u32
    requires row { row < length table.now.items }
    requires index { index < length (slice_index_or (map (λ row. row.items) table.now.items) row []) }
    ensures { result ≡ slice_index_or (slice_index_or (map (λ row. row.items) table.now.items) row []) index 0 }
{
    table[row][index]
}

/// The least weight behind an edge.
pub fn beyond(problem: &Problem, table: &Vec<Vec<u32>>, place: u32, left: usize, arc: &Arc) -> u32
    requires table { IsFilled problem.now (map (λ row. row.items) table.now.items) place left }
    requires arc { IsArc problem.now place arc.now }
    ensures { IsBeyond problem.now left (weight_limit problem.now place left) arc.now result }
{
    match arc.step {
        Step::Lay(_) => {
            weight_at(
                table,
                7 * (problem.places - 1 - arc.place) as usize + 6,
                arc.to,
            )
        },
        Step::Go(_) => {
            if left == 0 {
                NEVER
            } else {
                weight_at(
                    table,
                    7 * (problem.places - 1 - place) as usize + left - 1,
                    arc.to,
                )
            }
        }
    }
}

// The weight of a place and a map without a step.
fn end_weight(problem: &Problem, place: u32, map: &Map) -> u32
    requires { 2 ≤ problem.now.places }
    ensures { IsEndWeight problem.now (record { place = place; map = map.now }) result }
{
    if place == problem.places - 1 {
        if same_map(map, &problem.exit) {
            return 0;
        }
    }
    NEVER
}

// The weights of a place without a step.
fn end_weights(alloc: Global, problem: &Problem, place: u32) -> Result<Vec<u32>, NoMemory>
    requires { 2 ≤ problem.now.places }
    ensures { IfOk result (λ row. AreEndWeights problem.now place row.items) }
{
    let mut row = Vec::new(alloc);
    for map in problem.maps.as_slice() {
        row.push(end_weight(problem, place, map))?;
    }
    Ok(row)
}

// The least weights of a place, with no move left.
fn tile_weights(
    alloc: Global,
    problem: &Problem,
    arcs: &[Arc],
    table: &Vec<Vec<u32>>,
    place: u32,
) -> Result<Vec<u32>, NoMemory>
    requires table { IsFilled problem.now (map (λ row. row.items) table.now.items) place 0 }
    requires arcs { AreArcs problem.now place arcs.now }
    ensures { IfOk result (λ row. IsRow problem.now place 0 (weight_limit problem.now place 0) row.items) }
{
    let mut row = end_weights(alloc, problem, place)?;
    for arc in arcs {
        let behind = beyond(problem, table, place, 0, arc);
        if behind < NEVER {
            let weight = 512 * arc.price + 1 + behind;
            if weight < row[arc.from] {
                row[arc.from] = weight;
            }
        }
    }
    Ok(row)
}

// The least weights of a place, with so many moves left, by those with none left and with one less.
fn move_weights(
    alloc: Global,
    problem: &Problem,
    arcs: &[Arc],
    base: &[u32],
    fewer: &[u32],
    place: u32,
    left: usize,
) -> Result<Vec<u32>, NoMemory>
    requires full { IsFull problem.now }
    requires arcs { AreArcs problem.now place arcs.now }
    requires left { 0 < left }
    requires few { left ≤ 6 }
    requires base { IsRow problem.now place 0 (weight_limit problem.now place 0) base.now }
    requires fewer { IsRow problem.now place (left - 1) (weight_limit problem.now place (left - 1)) fewer.now }
    ensures { IfOk result (λ row. IsRow problem.now place left (weight_limit problem.now place left) row.items) }
{
    let mut row = Vec::from_slice(alloc, base)?;
    for arc in arcs {
        if let Step::Go(_) = arc.step {
            let behind = fewer[arc.to];
            if behind < NEVER {
                let weight = 512 * arc.price + 1 + behind;
                if weight < row[arc.from] {
                    row[arc.from] = weight;
                }
            }
        }
    }
    Ok(row)
}

// The least weights of a place, with so many moves left. Tiles are looked at with no move left alone: behind a tile it doesn't
// matter how many were.
fn weights_at(
    alloc: Global,
    problem: &Problem,
    arcs: &[Arc],
    table: &Vec<Vec<u32>>,
    place: u32,
    left: usize,
) -> Result<Vec<u32>, NoMemory>
    requires table { IsFilled problem.now (map (λ row. row.items) table.now.items) place left }
    requires arcs { AreArcs problem.now place arcs.now }
    ensures { IfOk result (λ row. IsRow problem.now place left (weight_limit problem.now place left) row.items) }
{
    if left == 0 {
        return tile_weights(alloc, problem, arcs, table, place);
    }
    let first = 7 * (problem.places - 1 - place) as usize;
    let base = table[first].as_slice();
    let fewer = table[first + left - 1].as_slice();
    move_weights(alloc, problem, arcs, base, fewer, place, left)
}

/// The least weights of all places. Each has seven rows: the one at 7 * d + k is that of the place at d before the last,
/// with k moves left.
pub fn weights(
    alloc: Global,
    problem: &Problem,
    arcs: &Vec<Vec<Arc>>,
) -> Result<Vec<Vec<u32>>, NoMemory>
    requires full { IsFull problem.now }
    requires arcs { AreAllArcs problem.now (map (λ arcs. arcs.items) arcs.now.items) }
    ensures table { IfOk result (λ table. IsTable problem.now (map (λ row. row.items) table.items)) }
    ensures len { IfOk result (λ table. length table.items ≡ 7 * problem.now.places) }
{
    let mut table = Vec::new(alloc);
    for number in 0..7 * problem.places as usize {
        let place = problem.places - 1 - (number / 7) as u32;
        let row = weights_at(
            alloc,
            problem,
            arcs[place as usize].as_slice(),
            &table,
            place,
            number % 7,
        )?;
        table.push(row)?;
    }
    Ok(table)
}
