//! Standard input and output as a source and a sink.

ghost use Rattle.std.specs.Prelude.{◌≡◌, ◌≢◌, List, [], ◌≤◌, length, take, None, IfOk, OnOk, OnErr};
ghost use Rattle.std.specs.Io.KnownBytes.{ReadConsumes, WriteAppends};
ghost use Rattle.ow_base.specs.Fakes.{next_count};
ghost use Rattle.ow_base.specs.Outside.{Rose, appended, IsFront, OnTold, Takes};

use crate::outside::{Failed, Sink, Source};
use std::io::{Read, Write};

/// A source over a reader, as standard input. It tells no bytes.
#[derive(Drop)]
pub struct StdSource<R> {
    reader: R,
    faults: u64,
}

impl<R> StdSource<R> {
    /// A source of what the reader gives. It has not failed yet.
    pub fn new(reader: R) -> StdSource<R>
        ensures { result ≡ record { reader = reader; faults = 0 } }
    {
        StdSource { reader, faults: 0 }
    }

    /// How often it has failed; at 2^64 - 1 it stops counting.
    pub fn faults(&self) -> u64
        ensures { result ≡ self.now.faults }
    {
        self.faults
    }
}

impl<R: Read> Source for StdSource<R> {
    ghost left = { λ _. None };

    ghost faults = { λ s. s.faults };

    /// Reads once. `Failed` comes where the reader answers an error, and counts a fault.
    fn read(&mut self, buf: &mut [u8]) -> Result<usize, Failed>
        ensures passes { ReadConsumes (R.remaining self.old.reader) (R.remaining self.new.reader)
            result buf.new }
        ensures counts { OnErr result (self.new.faults ≡ next_count self.old.faults) }
        ensures stays { OnOk result (self.new.faults ≡ self.old.faults) }
        ensures count { IfOk result (λ n. n ≤ length buf.old) }
        ensures taken { IfOk result (λ n. Takes None None (take n buf.new)) }
        ensures end { IfOk result (λ n.
            n ≡ 0 → length buf.old ≢ 0 → OnTold None (λ bytes. bytes ≡ [])) }
        ensures failed { OnErr result (Rose self.old.faults self.new.faults) }
        ensures never_falls { self.old.faults ≤ self.new.faults }
    {
        match self.reader.read(buf) {
            Ok(count) => Ok(count),
            Err(_) => {
                self.faults = self.faults.saturating_add(1);
                Err(Failed)
            }
        }
    }
}

/// A sink over a writer, as standard output. It tells no bytes.
#[derive(Drop)]
pub struct StdSink<W> {
    writer: W,
    faults: u64,
}

impl<W> StdSink<W> {
    /// A sink of what the writer takes. It has not failed yet.
    pub fn new(writer: W) -> StdSink<W>
        ensures { result ≡ record { writer = writer; faults = 0 } }
    {
        StdSink { writer, faults: 0 }
    }

    /// How often it has failed; at 2^64 - 1 it stops counting.
    pub fn faults(&self) -> u64
        ensures { result ≡ self.now.faults }
    {
        self.faults
    }
}

impl<W: Write> Sink for StdSink<W> {
    ghost written = { λ _. None };

    ghost faults = { λ s. s.faults };

    /// Writes once. `Failed` comes where the writer answers an error, and where it takes nothing of a piece
    /// that is not empty, and counts a fault.
    fn write(&mut self, bytes: &[u8]) -> Result<usize, Failed>
        ensures passes { WriteAppends (W.contents self.old.writer) (W.contents self.new.writer)
            result bytes.now }
        ensures counts { OnErr result (self.new.faults ≡ next_count self.old.faults) }
        ensures stays { OnOk result (self.new.faults ≡ self.old.faults) }
        ensures count { IfOk result (λ n. n ≤ length bytes.now) }
        ensures some { IfOk result (λ n. length bytes.now ≢ 0 → n ≢ 0) }
        ensures written { IfOk result (λ n. None ≡ appended None (take n bytes.now)) }
        ensures front { OnErr result (IsFront bytes.now None None) }
        ensures failed { OnErr result (Rose self.old.faults self.new.faults) }
        ensures never_falls { self.old.faults ≤ self.new.faults }
    {
        match self.writer.write(bytes) {
            Ok(count) if count > 0 || bytes.is_empty() => Ok(count),
            _ => {
                self.faults = self.faults.saturating_add(1);
                Err(Failed)
            }
        }
    }
}
