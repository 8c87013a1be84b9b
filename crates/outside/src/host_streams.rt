// A source and a sink over std's readers and writers, of whose bytes nothing is told.
ghost use Rattle.std.specs.Prelude.{◌≡◌, None};

use crate::{Failed, Sink, Source};
use std::io::{Read, Write};

/// What a reader gives. It tells nothing of the bytes; each error of the reader is a fault.
#[derive(Drop)]
pub struct HostSource<R> {
    reader: R,
    faults: u64,
}

impl<R: Read> HostSource<R> {
    ghost use Rattle.outside.specs.Hosts.{reader_of, source_faults_of};

    /// A source over this reader. No call has failed yet.
    pub fn of(reader: R) -> Self
        ensures reader { reader_of result ≡ reader }
        ensures faults { source_faults_of result ≡ 0 }
    {
        HostSource { reader, faults: 0 }
    }
}

impl<R: Read> Source for HostSource<R> {
    ghost use Rattle.outside.specs.Hosts.{source_faults_of};

    ghost left = { λ _. None };

    ghost faults = { λ s. source_faults_of s };

    fn take(&mut self, into: &mut [u8]) -> Result<usize, Failed> {
        match self.reader.read(into) {
            Ok(count) => Ok(count),
            Err(_) => {
                self.faults = self.faults.saturating_add(1);
                Err(Failed)
            }
        }
    }
}

/// What a writer takes. It tells nothing of the bytes; each error of the writer is a fault, and so
/// is an answer that none of some bytes were written.
#[derive(Drop)]
pub struct HostSink<W> {
    writer: W,
    faults: u64,
}

impl<W: Write> HostSink<W> {
    ghost use Rattle.outside.specs.Hosts.{writer_of, sink_faults_of};

    /// A sink over this writer. No call has failed yet.
    pub fn of(writer: W) -> Self
        ensures writer { writer_of result ≡ writer }
        ensures faults { sink_faults_of result ≡ 0 }
    {
        HostSink { writer, faults: 0 }
    }
}

impl<W: Write> Sink for HostSink<W> {
    ghost use Rattle.outside.specs.Hosts.{sink_faults_of};

    ghost shown = { λ _. None };

    ghost faults = { λ s. sink_faults_of s };

    fn put(&mut self, bytes: &[u8]) -> Result<usize, Failed> {
        match self.writer.write(bytes) {
            Ok(count) if count > 0 || bytes.is_empty() => Ok(count),
            _ => {
                self.faults = self.faults.saturating_add(1);
                Err(Failed)
            }
        }
    }
}
