//! The table by which the host finds the code of a guest address, and the code that it is made for.
#![tactic(auto)]

ghost use Rattle.std.specs.Prelude.{◌≡◌, ◌*◌, IfOk, EachIndex, drop, length, slice_index};
ghost use Rattle.std.specs.List.{flat_map};
ghost use Rattle.byteorder.specs.Endian.{little_bytes, little_number};

mod code;

use byteorder::{ByteOrder, LittleEndian};
pub use code::{Code, CodeBytes, Entries};
use std::alloc::Global;
use word_kit::NoMemory;

/// The table's bytes: a word for each code word of the guest, the host address of its code, lowest
/// byte first as the host reads it.
pub fn table(alloc: Global, addresses: &[u32]) -> Result<Vec<u8>, NoMemory>
    ensures bytes { IfOk result (λ v. v.items ≡ flat_map (little_bytes 4) addresses.now) }
    ensures length { IfOk result (λ v. length v.items ≡ 4 * length addresses.now) }
    ensures words { IfOk result (λ v. EachIndex addresses.now
        (λ k. little_number 4 (drop (4 * k) v.items) ≡ slice_index addresses.now k)) }
{
    let mut bytes = vec![in alloc; 0; 4 * addresses.len()]?;
    LittleEndian::write_u32_into(addresses, &mut bytes);
    Ok(bytes)
}
