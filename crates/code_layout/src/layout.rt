//! The code segment: `hold`, the leaders' blocks and the singles, each at its address.

ghost use Rattle.std.specs.Prelude.{◌≡◌, ◌≤◌, ◌<◌, ◌+◌, ◌*◌, ◌^◌, ℕ, IfOk, All, length, vec_len, slice_index};
ghost use Rattle.block_find.specs.Prelude.{address_of, AreBlocksOf, all_blocks, block_at, word_count};
ghost use Rattle.code_layout.specs.Places.{no_moves};
ghost use Rattle.code_layout.specs.PlacesOf.{places_of};
ghost use Rattle.code_layout.specs.Code.{IsLaid, items_length};
ghost use Rattle.code_layout.specs.Layout.{ArePlansFor, BeginsAt, code_bytes, items_of, laying, steps_of};
ghost use Rattle.code_layout.specs.Decoded.{AreDecodedAs};

use crate::block_code::block_items;
use crate::code::{length, put, put_op};
use crate::places::Layout;
use crate::source::Source;
use base_flow::FlowOp;
use block_find::{each_begins_one, each_is_block, have_few_words};
use ia_codec::Op;
use std::alloc::Global;
use word_kit::NoMemory;

// `hold` is a jump to itself, of five bytes.
const HOLD_LENGTH: u32 = 5;

// The items of a block.
fn items(alloc: Global, source: &Source<'_>, block: usize) -> Result<Vec<FlowOp>, NoMemory>
    requires decoded { AreDecodedAs source.now.words.now source.now.decoded.now }
    requires blocks { AreBlocksOf source.now.first source.now.entry source.now.words.now source.now.blocks.now }
    requires plans { ArePlansFor source.now.first source.now.decoded.now (all_blocks source.now.blocks.now) (steps_of source.now.plans.now) }
    requires among { block < length (all_blocks source.now.blocks.now) }
    ensures items { IfOk result (λ v. v.items ≡ items_of (laying source.now.first source.now.decoded.now source.now.live.now (all_blocks source.now.blocks.now) (steps_of source.now.plans.now)) (block_at (all_blocks source.now.blocks.now) block)) }
    ensures laid { IfOk result (λ v. All IsLaid v.items) }
    ensures few { IfOk result (λ v. length v.items ≤ 8577) }
    ensures length { IfOk result (λ v. items_length no_moves v.items ≤ 631 * word_count (block_at (all_blocks source.now.blocks.now) block) + 5) }
{
    block_items(
        alloc,
        source.blocks.at(block).at,
        source.words_of(block),
        source.steps_of(block),
        source.live,
    )
}

/// The address of each code word's block, where the code begins at `code` and the blocks stand behind `hold`.
pub fn entries(alloc: Global, source: &Source<'_>, code: u32) -> Result<Vec<u32>, NoMemory>
    requires decoded { AreDecodedAs source.now.words.now source.now.decoded.now }
    requires blocks { AreBlocksOf source.now.first source.now.entry source.now.words.now source.now.blocks.now }
    requires plans { ArePlansFor source.now.first source.now.decoded.now (all_blocks source.now.blocks.now) (steps_of source.now.plans.now) }
    requires room { code + 5 + 636 * 262144 < 2 ^ 32 }
    ensures count { IfOk result (λ v. vec_len v ≡ length source.now.words.now) }
    ensures each { IfOk result (λ v. (k : ℕ) → k < length source.now.words.now → BeginsAt (laying source.now.first source.now.decoded.now source.now.live.now (all_blocks source.now.blocks.now) (steps_of source.now.plans.now)) no_moves (code + 5) (all_blocks source.now.blocks.now) (address_of source.now.first k) (slice_index v.items k)) }
{
    each_is_block();
    each_begins_one();
    have_few_words();
    let mut entries = vec![in alloc; 0; source.words.len()]?;
    let mut at = code + HOLD_LENGTH;
    for block in 0..source.blocks.count() {
        entries[source.place(block)] = at;
        let items = items(alloc, source, block)?;
        at += length(&items);
    }
    Ok(entries)
}

/// The bytes of the code segment.
pub fn code(alloc: Global, source: &Source<'_>, layout: &Layout<'_>) -> Result<Vec<u8>, NoMemory>
    requires first { layout.now.first ≡ source.now.first }
    requires decoded { AreDecodedAs source.now.words.now source.now.decoded.now }
    requires blocks { AreBlocksOf source.now.first source.now.entry source.now.words.now source.now.blocks.now }
    requires plans { ArePlansFor source.now.first source.now.decoded.now (all_blocks source.now.blocks.now) (steps_of source.now.plans.now) }
    requires room { layout.now.code + 12 + 32 * 8577 + 636 * 262144 < 2 ^ 32 }
    ensures bytes { IfOk result (λ v. v.items ≡ code_bytes (laying source.now.first source.now.decoded.now source.now.live.now (all_blocks source.now.blocks.now) (steps_of source.now.plans.now)) (places_of layout.now) (all_blocks source.now.blocks.now)) }
    ensures bound { IfOk result (λ v. vec_len v ≤ 12 + 636 * 262144) }
{
    each_is_block();
    have_few_words();
    let mut code = Vec::new(alloc);
    put_op(
        &mut code,
        &Op::Jmp {
            rel: 0u32.wrapping_sub(HOLD_LENGTH),
        },
    )?;
    for block in 0..source.blocks.count() {
        let items = items(alloc, source, block)?;
        put(&mut code, &items, layout)?;
    }
    Ok(code)
}
