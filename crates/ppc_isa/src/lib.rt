//! PowerPC instructions: the 32-bit integer part of Book I.
#![tactic(auto)]

mod decoding;
mod encoding;
mod instr;
mod laws;
mod locs;
mod map;
mod names;

pub use decoding::decode;
pub use encoding::encode;
pub use instr::{
    ArithmeticOp, ArithmeticUnaryOp, BranchRegisterOp, CompareImmediateOp, CompareOp, CrLogicOp,
    ImmediateOp, Instr, LoadIndexedOp, LoadIndexedUpdateOp, LoadOp, LoadUpdateOp, LogicImmediateOp,
    LogicOp, LogicUnaryOp, MultipleOp, RotateOp, StoreIndexedOp, StoreIndexedUpdateOp, StoreOp,
    StoreUpdateOp,
};
pub use laws::{one_instruction, one_reading, row_examples};
pub use locs::{
    Locs, carry_out, immediate_carries, immediate_records, logic_carries, logic_immediate_records,
    reads, unary_carry, writes,
};
pub use map::Map;
pub use names::mnemonic;
