//! Bytes between the memory of a program and the streams.

ghost use Rattle.std.specs.Prelude.{◌≡◌, false, ℕ, List, Some, length, IfOk, OnErr};
ghost use Rattle.outside.specs.Causes.{HasCause};
ghost use Rattle.outside.specs.Streams.{PutsAll};
ghost use Rattle.machines.specs.Prelude.{ArePermitted};
ghost use Rattle.runner.specs.Stepping.{StandAt};
ghost use Rattle.runner.specs.Attending.{HasTaken, HasTakeCause, TakesInVain};

use outside::{Failed, Sink, Source, put_all};
use space::Space;
use std::alloc::Global;
use word_kit::NoMemory;

/// How many bytes are moved at once.
const PIECE: usize = 4096;

/// What came of taking bytes.
#[derive(Drop)]
pub enum Taken {
    /// As many as were wanted, or all to the end.
    Bytes(Vec<u8>),
    /// The source failed.
    Failed,
}

/// Takes `count` bytes, or all to the source's end.
///
/// # Errors
/// `NoMemory` where there is no room for them, of which some may have been taken.
pub fn take_up_to<I: Source>(alloc: Global, input: &mut I, count: usize) -> Result<Taken, NoMemory>
    ensures taken { IfOk result (λ taken. (left : List ℕ) → I.left input.old ≡ Some left
        → HasTaken taken (I.left input.new) left count) }
    ensures cause { IfOk result (λ taken. HasTakeCause (I.faults input.old) (I.faults input.new) taken) }
    ensures in_vain { OnErr result ((left : List ℕ) → I.left input.old ≡ Some left
        → TakesInVain count left (I.left input.new) (I.faults input.old) (I.faults input.new)) }
{
    let mut bytes = Vec::new(alloc);
    let mut piece = [0; PIECE];
    while bytes.len() < count {
        let wanted = PIECE.min(count - bytes.len());
        match input.take(&mut piece[..wanted]) {
            Ok(0) => break,
            Ok(moved) => bytes.extend_from_slice(&piece[..moved])?,
            Err(Failed) => return Ok(Taken::Failed),
        }
    }
    Ok(Taken::Bytes(bytes))
}

// Puts the bytes of the memory from an address on, as many as the piece has, which holds them on their way.
fn put_piece<S: Sink>(space: &Space, at: u32, piece: &mut [u8], sink: &mut S) -> Result<(), Failed>
    requires { ArePermitted space.now false at (length piece.old) }
    ensures puts { (bytes : List ℕ) → length bytes ≡ length piece.old → StandAt space.now at bytes
        → PutsAll (S.shown sink.old) (S.shown sink.new) result bytes }
    ensures cause { HasCause (S.faults sink.old) (S.faults sink.new) result }
{
    space.copy(at, piece);
    put_all(sink, piece)
}

/// Puts `count` bytes of the memory, from an address on.
pub fn put_from<S: Sink>(space: &Space, at: u32, count: u32, sink: &mut S) -> Result<(), Failed>
    requires { ArePermitted space.now false at count }
    ensures puts { (bytes : List ℕ) → length bytes ≡ count → StandAt space.now at bytes
        → PutsAll (S.shown sink.old) (S.shown sink.new) result bytes }
    ensures cause { HasCause (S.faults sink.old) (S.faults sink.new) result }
{
    let mut piece = [0; PIECE];
    let mut done = 0;
    while done < count {
        let size = (count - done).min(PIECE as u32);
        match put_piece(
            space,
            at.wrapping_add(done),
            &mut piece[..size as usize],
            sink,
        ) {
            Ok(()) => done += size,
            Err(Failed) => return Err(Failed),
        }
    }
    Ok(())
}
