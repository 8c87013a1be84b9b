//! What base tiles cost.

ghost use Rattle.std.specs.Prelude.{◌≡◌, ◌≤◌, true, false, IfOk, IfSome, length};
ghost use Rattle.std.specs.List.{sum_by};
ghost use Rattle.machines.specs.Prelude.{cost_of, IsLegal};
ghost use Rattle.reg_map.specs.Prelude.{IsMap};
ghost use Rattle.row_laws.specs.FlowWords.{is_flow as is_flow_word};
ghost use Rattle.offer_make.specs.Prices.{item_cost as item_cost_of, straight_ops as straight_ops_of, symbolic_price, base_price as base_price_of, HasBaseTile};

use base_flow::FlowOp;
use ia_codec::{Op, cost};
use ppc_isa::{Instr, Map};
use std::alloc::Global;
use symbolic_tiles::{SymbolicOp, op_of};
use word_kit::NoMemory;

// What an op costs.
fn op_cost(op: &Op) -> u32
    ensures cost { result ≡ cost_of op.now }
    ensures small { result ≤ 22 }
{
    cost(op)
}

/// What ops that are told without a map cost together under a map.
pub fn ops_cost(ops: &[SymbolicOp], map: &Map) -> u32
    requires map { IsMap map.now }
    requires few { length ops.now ≤ 128 }
    ensures { result ≡ symbolic_price ops.now map.now }
{
    let mut sum = 0;
    for op in ops {
        sum += op_cost(&op_of(map, *op));
    }
    sum
}

// What an item of a flow word's tile costs.
fn item_cost(item: &FlowOp) -> u32
    ensures cost { result ≡ item_cost_of item.now }
    ensures small { result ≤ 22 }
{
    match item {
        FlowOp::Plain(op) => op_cost(op),
        FlowOp::Jump(_, _) => 1,
        FlowOp::Leap => 8,
        FlowOp::Mark(_) | FlowOp::Edge(_) => 0,
    }
}

// The sum of what items cost.
fn items_cost(items: &[FlowOp]) -> u32
    requires { length items.now ≤ 128 }
    ensures { result ≡ sum_by item_cost_of items.now }
{
    let mut sum = 0;
    for item in items {
        sum += item_cost(item);
    }
    sum
}

/// The base tile of a word that is no flow word, told without a map.
pub fn straight_ops(alloc: Global, instr: &Instr) -> Result<Vec<SymbolicOp>, NoMemory>
    requires straight { is_flow_word instr.now ≡ false }
    requires legal { IsLegal instr.now }
    ensures ops { IfOk result (λ ops. ops.items ≡ straight_ops_of instr.now) }
    ensures few { IfOk result (λ ops. length ops.items ≤ 128) }
{
    base_alu::tiles_are_short();
    base_mem::tiles_are_short();
    let ops = if base_mem::is_built(instr) {
        base_mem::symbolic_tile(alloc, instr)?
    } else {
        base_alu::symbolic_tile(alloc, instr)?
    };
    Ok(ops)
}

/// What the base tile of a flow word or of an illegal word costs, which stands at a guest address, under a map; None is an
/// illegal word.
pub fn flow_price(alloc: Global, word: &Option<Instr>, at: u32, map: &Map) -> Result<u32, NoMemory>
    requires map { IsMap map.now }
    requires tile { HasBaseTile word.now map.now }
    requires flow { IfSome word.now (λ instr. is_flow_word instr ≡ true) }
    ensures price { IfOk result (λ price. price ≡ base_price_of word.now at map.now) }
{
    match word {
        Some(instr) => {
            let items = base_flow::emit(alloc, instr, at, map)?;
            Ok(items_cost(items.as_slice()))
        },
        None => Ok(cost(&Op::Ud2)),
    }
}
