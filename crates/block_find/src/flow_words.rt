//! The words with which a block ends.
ghost use Rattle.std.specs.Prelude.{◌≡◌, ◌↔◌, IsTrue};
ghost use Rattle.row_laws.specs.FlowWords.{is_flow as is_flow_of};
ghost use Rattle.block_find.specs.Branches.{IsFlowWord};

use ppc_isa::{Instr, decode};

/// Whether the instruction is a flow word: a branch, sc or a trap.
fn is_flow(instr: &Instr) -> bool
    ensures { result ≡ is_flow_of instr.now }
{
    matches!(
        *instr,
        Instr::Branch { .. }
            | Instr::BranchConditional { .. }
            | Instr::BranchRegister { .. }
            | Instr::Trap { .. }
            | Instr::TrapImmediate { .. }
            | Instr::SystemCall
    )
}

/// Whether a block ends with the word: it is a flow word, or no legal word.
pub fn is_flow_word(word: u32) -> bool
    ensures { IsTrue result ↔ IsFlowWord word }
{
    match decode(word) {
        Some(instr) => is_flow(&instr),
        None => true,
    }
}
