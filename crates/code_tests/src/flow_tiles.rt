//! The tiles of two flow words, from the outside.

use base_flow::{FlowOp, emit};
use ia_codec::{AluOp, Op, Operand};
use ppc_isa::{Instr, Map};

const EMPTY: Map = Map {
    ebx: None,
    esi: None,
    edi: None,
};

// 4bfffffc at 0x10000010 is a branch to the word before it.
#[test]
fn a_branch_leads_back(rt: HostRuntime) {
    let instr = Instr::Branch {
        target: 0xFF_FFFF,
        absolute: false,
        link: false,
    };
    let Ok(ops) = emit(rt.alloc(), &instr, 0x1000_0010, &EMPTY) else {
        panic!(rt; "no memory");
    };
    assert!(rt; ops.len() == 1);
    assert!(rt; matches!(&ops[0], FlowOp::Edge(0x1000_000C)));
}

// The tile of 44000002 has 37 items, among them the call and both changes of CR0, and leads on.
#[test]
fn a_system_call_asks_and_goes_on(rt: HostRuntime) {
    let Ok(ops) = emit(rt.alloc(), &Instr::SystemCall, 0x1000_0008, &EMPTY) else {
        panic!(rt; "no memory");
    };
    assert!(rt; ops.len() == 37);
    assert!(rt; matches!(&ops[19], FlowOp::Plain(Op::Int80)));
    assert!(rt;
        matches!(
            &ops[24],
            FlowOp::Plain(Op::AluImm {
                op: AluOp::And,
                to: Operand::Reg(1),
                imm: 14
            })
        )
    );
    assert!(rt;
        matches!(
            &ops[33],
            FlowOp::Plain(Op::AluImm {
                op: AluOp::Or,
                to: Operand::Reg(1),
                imm: 1
            })
        )
    );
    assert!(rt; matches!(&ops[36], FlowOp::Edge(0x1000_000C)));
}
