//! A translator in small: lines of instructions over one register, with calls. What it promises rests
//! on what [`agreement`] and [`agrees_in_larger`] say alone.
ghost use Rattle.std.specs.Prelude.{IfOk};
ghost use Rattle.runs.specs.Machine.{AgreesFrom};
ghost use Rattle.runs.specs.Laws.{StaysIn};
ghost use Rattle.runs.specs.Example.{guest_step, host_step, guarded_step, guest_start, host_start, WrongOpsDisagree};

use crate::{agreement, agrees_in_larger};
use std::alloc::{AllocError, Global};
use std::marker::Brand;

/// A guest instruction. The guest has one register of 32 bits.
#[derive(Clone, Copy)]
pub enum Word {
    /// Does nothing.
    Sync,
    /// Adds a number to the register.
    Add(u32),
    /// Writes a byte to file 1; the register gets the result or the error.
    Write(u8),
    /// Jumps to itself.
    Spin,
    /// Ends with the register's number.
    Exit,
    /// Jumps outside the program.
    Leave,
}

/// A host op. The host has the same register and a buffer of one byte.
#[derive(Clone, Copy)]
pub enum Op {
    /// Does nothing.
    Pass,
    /// Adds a number to the register.
    Add(u32),
    /// Puts a byte into the buffer.
    Store(u8),
    /// Writes the buffer to file 1; the register gets the result or the error.
    Call,
    /// Jumps to itself.
    Hold,
    /// Ends with the register's number.
    Exit,
    /// Reads its own code into the buffer.
    Peek,
}

/// How many words may follow one another without an op.
const LONGEST: u64 = 64;

/// The ops that carry out the words. A `Sync` has none, but where a block would grow too long.
pub fn translate(alloc: Global, words: &[Word]) -> Result<Vec<Op>, AllocError>
    ensures { IfOk result
        (λ ops. AgreesFrom guest_step host_step (StaysIn guarded_step host_step)
        (guest_start words.now) (host_start ops.items)) }
{
    agreement::<Brand>();
    agrees_in_larger::<Brand, Brand>();
    let mut ops = Vec::new(alloc);
    let mut place: u64 = 0;
    for word in words {
        place += 1;
        match *word {
            Word::Sync if place < LONGEST => continue,
            Word::Sync => ops.push(Op::Pass)?,
            Word::Add(number) => ops.push(Op::Add(number))?,
            Word::Write(byte) => {
                ops.push(Op::Store(byte))?;
                ops.push(Op::Call)?;
            }
            Word::Spin => ops.push(Op::Hold)?,
            Word::Exit => ops.push(Op::Exit)?,
            Word::Leave => {}
        }
        place = 0;
    }
    Ok(ops)
}

/// What agreement refuses, though each comes near to it: another byte is written, the code is read, no
/// step is made, or too many.
pub fn wrong_ops_disagree()
    ensures { WrongOpsDisagree }
{}
