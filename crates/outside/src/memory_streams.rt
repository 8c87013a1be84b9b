// A source and a sink in memory, whose calls fail by a list of numbers.
ghost use Rattle.std.specs.Prelude.{◌≡◌, ◌<◌, ◌≤◌, ◌==◌, ◌&&◌, ◌||◌, nat_lt, min, is_err, [], Some, length, drop, vec_len, IfOk};
ghost use Rattle.std.specs.Io.{ReadsAtMost, WritesAtMost};
ghost use Rattle.std.specs.Io.KnownBytes.{ReadConsumes, WriteAppends};
ghost use Rattle.std.specs.Vec.{vec_capacity};
ghost use Rattle.outside.specs.Causes.{HasCause, CountsFault};
ghost use Rattle.outside.specs.Calls.{calls_from, after_call, fails_next};

use crate::calls::Schedule;
use crate::{Failed, Sink, Source};
use std::alloc::Global;
use word_kit::NoMemory;

/// A source that has its bytes in memory and tells them. It fails at the stated calls alone.
#[derive(Drop)]
pub struct MemSource {
    bytes: Vec<u8>,
    at: usize,
    schedule: Schedule,
    faults: u64,
    ghost in_range: { at ≤ vec_len bytes },
}

impl MemSource {
    ghost use Rattle.outside.specs.MemSource.{left_in, calls_of, faults_of};

    /// A source of these bytes. `failing` has the numbers of the calls that fail, counted from 1.
    pub fn of(bytes: Vec<u8>, failing: Vec<u64>) -> Self
        ensures left { left_in result ≡ bytes.items }
        ensures calls { calls_of result ≡ calls_from failing.items }
        ensures faults { faults_of result ≡ 0 }
    {
        MemSource {
            bytes,
            at: 0,
            schedule: Schedule::of(failing),
            faults: 0,
        }
    }

    /// The bytes not yet taken.
    pub fn left(&self) -> &[u8]
        ensures { result.now ≡ left_in self.now }
    {
        &self.bytes[self.at..]
    }
}

impl Source for MemSource {
    ghost use Rattle.outside.specs.MemSource.{left_in, calls_of, faults_of};

    ghost left = { λ s. Some (left_in s) };

    ghost faults = { λ s. faults_of s };

    fn take(&mut self, into: &mut [u8]) -> Result<usize, Failed>
        ensures bound { ReadsAtMost result into.new }
        ensures bytes { ReadConsumes (Some (left_in self.old)) (Some (left_in self.new)) result into.new }
        ensures cause { HasCause (faults_of self.old) (faults_of self.new) result }

        // As many bytes as there are and as fit, and nothing behind them is written.
        ensures count { IfOk result (λ n. n ≡ min (length into.old) (length (left_in self.old))) }
        ensures behind { IfOk result (λ n. drop n into.new ≡ drop n into.old) }

        // It fails at the stated calls alone, and counts each failure once.
        ensures fails { is_err result ≡ fails_next (calls_of self.old) }
        ensures calls { calls_of self.new ≡ after_call (calls_of self.old) }
        ensures faults { CountsFault (faults_of self.old) (faults_of self.new) result }
    {
        if self.schedule.next_fails() {
            self.faults = self.faults.saturating_add(1);
            return Err(Failed);
        }
        let count = into.len().min(self.bytes.len() - self.at);
        into[..count].copy_from_slice(&self.bytes[self.at..self.at + count]);
        self.at += count;
        Ok(count)
    }
}

/// A sink that keeps its bytes in memory and tells them. It fails at the stated calls, at a
/// nonempty put where its room is full, and nowhere else.
#[derive(Drop)]
pub struct MemSink {
    bytes: Vec<u8>,
    room: usize,
    schedule: Schedule,
    faults: u64,
    ghost in_range: { vec_len bytes ≤ room },
    ghost reserved: { room ≤ vec_capacity bytes },
}

impl MemSink {
    ghost use Rattle.outside.specs.MemSink.{shown_in, room_of, calls_of, faults_of};

    /// An empty sink with room for `room` bytes, whose memory it takes here. `failing` has the
    /// numbers of the calls that fail, counted from 1.
    pub fn of(alloc: Global, room: usize, failing: Vec<u64>) -> Result<Self, NoMemory>
        ensures shown { IfOk result (λ sink. shown_in sink ≡ []) }
        ensures room { IfOk result (λ sink. room_of sink ≡ room) }
        ensures calls { IfOk result (λ sink. calls_of sink ≡ calls_from failing.items) }
        ensures faults { IfOk result (λ sink. faults_of sink ≡ 0) }
    {
        match Vec::with_capacity(alloc, room) {
            Ok(bytes) => Ok(MemSink {
                bytes,
                room,
                schedule: Schedule::of(failing),
                faults: 0,
            }),
            Err(_) => Err(NoMemory),
        }
    }

    /// All bytes put.
    pub fn shown(&self) -> &[u8]
        ensures { result.now ≡ shown_in self.now }
    {
        &self.bytes
    }
}

impl Sink for MemSink {
    ghost use Rattle.outside.specs.MemSink.{shown_in, room_of, room_left, calls_of, faults_of};

    ghost shown = { λ s. Some (shown_in s) };

    ghost faults = { λ s. faults_of s };

    fn put(&mut self, bytes: &[u8]) -> Result<usize, Failed>
        ensures bound { WritesAtMost result bytes.now }
        ensures some { IfOk result (λ n. 0 < length bytes.now → 0 < n) }
        ensures bytes { WriteAppends (Some (shown_in self.old)) (Some (shown_in self.new)) result bytes.now }
        ensures cause { HasCause (faults_of self.old) (faults_of self.new) result }

        // As many bytes as there are and as fit.
        ensures count { IfOk result (λ n. n ≡ min (length bytes.now) (room_left self.old)) }
        ensures room { room_of self.new ≡ room_of self.old }

        // It fails at the stated calls and where bytes find no room, and counts each failure once.
        ensures fails { is_err result ≡ (fails_next (calls_of self.old)
            || (nat_lt 0 (length bytes.now) && room_left self.old == 0)) }
        ensures calls { calls_of self.new ≡ after_call (calls_of self.old) }
        ensures faults { CountsFault (faults_of self.old) (faults_of self.new) result }
    {
        let count = bytes.len().min(self.room - self.bytes.len());
        if self.schedule.next_fails() || (!bytes.is_empty() && count == 0) {
            self.faults = self.faults.saturating_add(1);
            return Err(Failed);
        }
        self.bytes.extend_from_slice(&bytes[..count]).unwrap();
        Ok(count)
    }
}
