use runs::example::{Op, Word, translate};
use std::alloc::AllocError;

#[test]
fn a_sync_has_no_op(rt: HostRuntime) -> Result<(), AllocError> {
    let words = [Word::Sync, Word::Add(7), Word::Write(104), Word::Exit];
    let ops = translate(rt.alloc(), words.as_slice())?;
    assert!(rt; ops.len() == 4);
    assert!(rt; matches!(ops[0], Op::Add(7)));
    assert!(rt; matches!(ops[1], Op::Store(104)));
    assert!(rt; matches!(ops[2], Op::Call));
    assert!(rt; matches!(ops[3], Op::Exit));
    Ok(())
}

#[test]
fn a_block_has_64_words_at_most(rt: HostRuntime) -> Result<(), AllocError> {
    let words = [Word::Sync; 129];
    let ops = translate(rt.alloc(), words.as_slice())?;
    assert!(rt; ops.len() == 2);
    Ok(())
}
