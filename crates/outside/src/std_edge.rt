// The trusted edge: sources and sinks over std's readers and writers.
ghost use Rattle.std.specs.Prelude.{◌≡◌, ◌≢◌, ℕ, ◌<◌, ◌≤◌, None, [], length, take};
ghost use Rattle.std.specs.Io.KnownBytes.{Consumes, Appends, Keeps, IsAtEnd};
ghost use Rattle.outside.specs.Faults.{one_more};
ghost use Rattle.outside.specs.Putting.{IfTook};
ghost use Rattle.outside.specs.Putting as putting;
ghost use Rattle.outside.specs.Taking.{IfBytes, OnEnd};
ghost use Rattle.outside.specs.Taking as taking;

use crate::sink::{Putting, Sink};
use crate::source::{Source, Taking};
use std::io::{Read, Write};
use std::marker::Model;

/// A source over a reader. It tells nothing of bytes as a source, and counts each error of the reader, also
/// that of an interrupted read. Contracts see it as the reader and that count.
#[derive(Drop)]
pub struct StdSource<B: Read + Drop> {
    reader: B,
    faults: u64,
}

impl<B: Read + Drop> Model for StdSource<B> {
    ghost use Rattle.outside.specs.Edges.{EdgeState};

    ghost Value = { EdgeState B };

    ghost view = { λ s. record { inner = s.reader; faults = s.faults } };
}

impl<B: Read + Drop> StdSource<B> {
    /// Gives what `reader` reads.
    pub fn new(reader: B) -> Self
        ensures inner { result.inner ≡ reader }
        ensures faults { result.faults ≡ 0 }
    {
        StdSource { reader, faults: 0 }
    }
}

impl<B: Read + Drop> Source for StdSource<B> {
    ghost left = { λ _. None };

    ghost faults = { λ s. s.faults };

    fn take(&mut self, into: &mut [u8]) -> Taking
        requires room { 0 < length into.old }
        ensures some { IfBytes result (λ n. 0 < n) }
        ensures within { IfBytes result (λ n. n ≤ length into.new) }
        // One read of the reader, where its contract tells its bytes.
        ensures read { IfBytes result (λ n.
            Consumes (B.remaining self.old.inner) (B.remaining self.new.inner) (take n into.new)) }
        ensures at_end { OnEnd result (IsAtEnd (B.remaining self.new.inner)) }
        ensures read_none { OnEnd result (Consumes (B.remaining self.old.inner) (B.remaining self.new.inner) []) }
        ensures unread { taking.OnFailed result (Keeps (B.remaining self.old.inner) (B.remaining self.new.inner)) }

        ensures failed { taking.OnFailed result (self.new.faults ≡ one_more self.old.faults) }
        ensures no_fault { result ≢ Taking.Failed → self.new.faults ≡ self.old.faults }
        ensures never_falls { self.old.faults ≤ self.new.faults }
    {
        match self.reader.read(into) {
            Ok(0) => Taking::End,
            Ok(count) => Taking::Bytes(count),
            Err(_) => {
                self.faults = self.faults.saturating_add(1);
                Taking::Failed
            }
        }
    }
}

/// A sink over a writer. It tells nothing of bytes as a sink, and counts each error of the writer and each
/// write that took nothing. Contracts see it as the writer and that count. It flushes nothing: the writer is to
/// keep no bytes back.
#[derive(Drop)]
pub struct StdSink<W: Write + Drop> {
    writer: W,
    faults: u64,
}

impl<W: Write + Drop> Model for StdSink<W> {
    ghost use Rattle.outside.specs.Edges.{EdgeState};

    ghost Value = { EdgeState W };

    ghost view = { λ s. record { inner = s.writer; faults = s.faults } };
}

impl<W: Write + Drop> StdSink<W> {
    /// Writes to `writer`.
    pub fn new(writer: W) -> Self
        ensures inner { result.inner ≡ writer }
        ensures faults { result.faults ≡ 0 }
    {
        StdSink { writer, faults: 0 }
    }
}

impl<W: Write + Drop> Sink for StdSink<W> {
    ghost got = { λ _. None };

    ghost faults = { λ s. s.faults };

    fn put(&mut self, piece: &[u8]) -> Putting
        requires { 0 < length piece.now }
        ensures some { IfTook result (λ n. 0 < n) }
        ensures within { IfTook result (λ n. n ≤ length piece.now) }
        // One write of the writer, where its contract tells its bytes.
        ensures written { IfTook result (λ n.
            Appends (W.contents self.old.inner) (W.contents self.new.inner) (take n piece.now)) }
        ensures unwritten { putting.OnFailed result
            (Appends (W.contents self.old.inner) (W.contents self.new.inner) []) }

        ensures failed { putting.OnFailed result (self.new.faults ≡ one_more self.old.faults) }
        ensures no_fault { result ≢ Putting.Failed → self.new.faults ≡ self.old.faults }
        ensures never_falls { self.old.faults ≤ self.new.faults }
    {
        match self.writer.write(piece) {
            Ok(count) if count > 0 => Putting::Took(count),
            _ => {
                self.faults = self.faults.saturating_add(1);
                Putting::Failed
            }
        }
    }
}
