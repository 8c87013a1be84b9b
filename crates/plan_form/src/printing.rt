//! From plans to text.

ghost use Rattle.std.specs.Prelude.{◌≡◌, ◌++◌, ◌∷◌, [], OnOk, IfOk, map};
ghost use Rattle.std.specs.Int.{w32, to_be_bytes};
ghost use Rattle.std.specs.List.{flat_map};
ghost use Rattle.hex.specs.Hex.{encode_lower};
ghost use Rattle.line_text.specs.Lines.{line_of};
ghost use Rattle.plan_form.specs.Texts.{slot_word, content_word, map_word, Head, Does, Row, End, words_of, written, rows, opened, text_of};

use crate::problem::{BlockPlan, Step, Tile};
use line_text::{put_decimal, put_hexadecimal};
use ppc_isa::Map;
use reg_map::Move;
use std::alloc::{AllocError, Global};
use word_kit::NoMemory;

fn put_slot(out: &mut Vec<u8>, slot: u8) -> Result<(), AllocError>
    ensures { OnOk result (out.new.items ≡ out.old.items ++ slot_word slot) }
{
    match slot {
        0 => out.extend_from_slice(b"ebx")?,
        1 => out.extend_from_slice(b"esi")?,
        _ => out.extend_from_slice(b"edi")?,
    }
    Ok(())
}

fn put_content(out: &mut Vec<u8>, content: Option<u8>) -> Result<(), AllocError>
    ensures { OnOk result (out.new.items ≡ out.old.items ++ content_word content) }
{
    match content {
        None => out.push(b'-')?,
        Some(gpr) => {
            out.push(b'r')?;
            put_decimal(out, gpr as u64)?;
        }
    }
    Ok(())
}

fn put_map(out: &mut Vec<u8>, map: &Map) -> Result<(), AllocError>
    ensures { OnOk result (out.new.items ≡ out.old.items ++ map_word map.now) }
{
    put_content(out, map.ebx)?;
    out.push(b',')?;
    put_content(out, map.esi)?;
    out.push(b',')?;
    put_content(out, map.edi)?;
    Ok(())
}

// Appends an address in eight digits.
fn put_address(out: &mut Vec<u8>, at: u32) -> Result<(), AllocError>
    ensures { OnOk result (out.new.items ≡ out.old.items ++ encode_lower (to_be_bytes w32 at)) }
{
    put_hexadecimal(out, &at.to_be_bytes())
}

fn put_head(out: &mut Vec<u8>, block: &BlockPlan) -> Result<(), AllocError>
    ensures { OnOk result (out.new.items ≡ out.old.items ++ line_of (words_of (Head block.now.at block.now.words block.now.entry block.now.exit))) }
{
    out.extend_from_slice(b"block ")?;
    put_address(out, block.at)?;
    out.push(b' ')?;
    put_decimal(out, block.words as u64)?;
    out.push(b' ')?;
    put_map(out, &block.entry)?;
    out.push(b' ')?;
    put_map(out, &block.exit)?;
    out.push(b'\n')?;
    Ok(())
}

fn put_step(out: &mut Vec<u8>, step: Step) -> Result<(), AllocError>
    ensures { OnOk result (out.new.items ≡ out.old.items ++ line_of (words_of (Does step))) }
{
    match step {
        Step::Lay(Tile::Base) => out.extend_from_slice(b"base")?,
        Step::Lay(Tile::Rule(number)) => {
            out.extend_from_slice(b"rule ")?;
            put_decimal(out, number as u64)?;
        }
        Step::Go(Move::Drop(slot)) => {
            out.extend_from_slice(b"drop ")?;
            put_slot(out, slot)?;
        }
        Step::Go(Move::Take(slot, gpr)) => {
            out.extend_from_slice(b"take ")?;
            put_slot(out, slot)?;
            out.push(b' ')?;
            put_decimal(out, gpr as u64)?;
        }
    }
    out.push(b'\n')?;
    Ok(())
}

fn put_row(out: &mut Vec<u8>, place: usize, labels: &[u32]) -> Result<(), AllocError>
    ensures { OnOk result (out.new.items ≡ out.old.items ++ line_of (words_of (Row place labels.now))) }
{
    out.extend_from_slice(b"at ")?;
    put_decimal(out, place as u64)?;
    for label in labels {
        out.push(b' ')?;
        put_decimal(out, *label as u64)?;
    }
    out.push(b'\n')?;
    Ok(())
}

fn put_steps(out: &mut Vec<u8>, steps: &[Step]) -> Result<(), AllocError>
    ensures { OnOk result (out.new.items ≡ out.old.items ++ flat_map (λ x. line_of (words_of x)) (map Does steps.now)) }
{
    for step in steps {
        put_step(out, *step)?;
    }
    Ok(())
}

fn put_rows(out: &mut Vec<u8>, labels: &[Vec<u32>]) -> Result<(), AllocError>
    ensures { OnOk result (out.new.items ≡ out.old.items ++ flat_map (λ x. line_of (words_of x)) (rows 0 (map (λ row. row.items) labels.now))) }
{
    for place in 0..labels.len() {
        put_row(out, place, &labels[place])?;
    }
    Ok(())
}

fn put_block(out: &mut Vec<u8>, block: &BlockPlan) -> Result<(), AllocError>
    ensures { OnOk result (out.new.items ≡ out.old.items ++ flat_map (λ x. line_of (words_of x)) (opened (written block.now) ++ End ∷ [])) }
{
    put_head(out, block)?;
    put_steps(out, &block.plan.steps)?;
    put_rows(out, &block.labels.values)?;
    out.extend_from_slice(b"end\n")?;
    Ok(())
}

/// The one text of the plans.
pub fn print(alloc: Global, plans: &[BlockPlan]) -> Result<Vec<u8>, NoMemory>
    ensures { IfOk result (λ v. v.items ≡ text_of (map written plans.now)) }
{
    let mut out = Vec::new(alloc);
    out.extend_from_slice(b"plan 1\n")?;
    for plan in plans {
        put_block(&mut out, plan)?;
    }
    Ok(out)
}
