//! Tiles as bytes, and what they cost.

use ia_codec::{Op, cost, encode, in_profile};
use std::alloc::Global;
use std::test::Fail;

/// The ops' bytes; none for an op that has no spelling.
pub fn spelled(alloc: Global, ops: &[Op]) -> Result<Vec<u8, Global>, Fail> {
    let mut bytes = Vec::new(alloc);
    for op in ops {
        if in_profile(op) {
            let spelling = encode(op);
            bytes.extend_from_slice(&spelling.bytes[..spelling.len as usize])?;
        }
    }
    Ok(bytes)
}

/// The sum of the ops' costs.
pub fn price(ops: &[Op]) -> u32 {
    let mut sum = 0u32;
    for op in ops {
        sum = sum.wrapping_add(cost(op));
    }
    sum
}
