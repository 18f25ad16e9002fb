//! Sources and sinks in memory, of which some fail at calls that are listed.

ghost use Rattle.std.specs.Prelude.{◌≡◌, ◌≢◌, ℕ, List, ◌-◌, ◌≤◌, ◌↔◌, ◌⊎◌, min, [], ◌++◌, length, take, drop, IsTrue, IsErr, IfOk, OnOk, OnErr, Some, vec_len};
ghost use Rattle.ow_base.specs.Outside.{Rose, IsFront, Takes};
ghost use Rattle.ow_base.specs.Fakes.{is_failing, paced, IsStuck, read_count, after_read, after_failed_read};
ghost use Rattle.ow_base.specs.Fakes.{write_count, after_write, after_failed_write};
ghost use Rattle.ow_base.specs.Fakes.{fill_count, after_fill, after_failed_fill};

use crate::outside::{Failed, Sink, Source};
use std::marker::Model;

/// A source over bytes in memory that never fails. Contracts see it as the bytes that are left.
#[derive(Debug, Drop)]
pub struct FixedSource {
    bytes: Vec<u8>,
    taken: usize,
}

impl Model for FixedSource {
    ghost Value = { List ℕ };

    ghost view = { λ s. drop s.taken s.bytes.items };

    ghost invariant = { λ s. s.taken ≤ vec_len s.bytes };
}

impl FixedSource {
    /// A source of these bytes.
    pub fn new(bytes: Vec<u8>) -> FixedSource
        ensures { result ≡ bytes.items }
    {
        FixedSource { bytes, taken: 0 }
    }

    /// The bytes that are left.
    pub fn left(&self) -> &[u8]
        ensures { result.now ≡ self.now }
    {
        &self.bytes[self.taken..]
    }

    /// How often it has failed: never.
    pub fn faults(&self) -> u64
        ensures { result ≡ 0 }
    {
        0
    }

    // Gives the next bytes to the front of a buffer, at most so many.
    fn give(&mut self, buf: &mut [u8], most: usize) -> usize
        requires { most ≤ length buf.old }
        ensures count { result ≡ min most (length self.old) }
        ensures copied { buf.new ≡ take result self.old ++ drop result buf.old }
        ensures left { self.new ≡ drop result self.old }
    {
        let left = &self.bytes[self.taken..];
        let count = most.min(left.len());
        buf[..count].copy_from_slice(&left[..count]);
        self.taken += count;
        count
    }
}

impl Source for FixedSource {
    ghost left = { λ s. Some s };

    ghost faults = { λ _. 0 };

    /// Reads as many of the next bytes as the buffer takes. It never fails.
    fn read(&mut self, buf: &mut [u8]) -> Result<usize, Failed>
        ensures reads { result ≡ Ok (min (length buf.old) (length self.old)) }
        ensures copied { IfOk result (λ n. buf.new ≡ take n self.old ++ drop n buf.old) }
        ensures left { IfOk result (λ n. self.new ≡ drop n self.old) }
        ensures count { IfOk result (λ n. n ≤ length buf.old) }
        ensures taken { IfOk result (λ n. Takes (Some self.old) (Some self.new) (take n buf.new)) }
        ensures end { IfOk result (λ n. n ≡ 0 → length buf.old ≢ 0 → self.old ≡ []) }
        ensures failed { OnErr result (Rose 0 0) }
        ensures never_falls { 0 ≤ 0 }
    {
        let most = buf.len();
        Ok(self.give(buf, most))
    }
}

/// A source over bytes in memory that fails at the calls that were listed. No call takes memory.
///
/// Contracts see the bytes that are left, the list, and the counts.
#[derive(Debug, Drop)]
pub struct MemSource {
    bytes: FixedSource,
    fails: Vec<u32>,
    calls: u32,
    faults: u64,
    pace: usize,
}

impl Model for MemSource {
    ghost use Rattle.ow_base.specs.Fakes.{Reading};

    ghost Value = { Reading };

    ghost view = { λ s. record {
      left = s.bytes;
      fails = s.fails.items;
      calls = s.calls;
      faults = s.faults;
      pace = s.pace;
    } };
}

impl MemSource {
    /// A source of these bytes that fails exactly at the calls whose numbers, from 1, are listed. Calls
    /// past number 2^32 - 1 are not counted.
    pub fn new(bytes: Vec<u8>, fails: Vec<u32>) -> MemSource
        ensures { result ≡ record {
          left = bytes.items;
          fails = fails.items;
          calls = 0;
          faults = 0;
          pace = 0;
        } }
    {
        MemSource {
            bytes: FixedSource::new(bytes),
            fails,
            calls: 0,
            faults: 0,
            pace: 0,
        }
    }

    /// The same, but that one call gives at most so many bytes. 0 limits nothing.
    pub fn with_pace(mut self, pace: usize) -> MemSource
        ensures { result ≡ record self { pace = pace } }
    {
        self.pace = pace;
        self
    }

    /// The bytes that are left.
    pub fn left(&self) -> &[u8]
        ensures { result.now ≡ self.now.left }
    {
        self.bytes.left()
    }

    /// How often it has failed.
    pub fn faults(&self) -> u64
        ensures { result ≡ self.now.faults }
    {
        self.faults
    }
}

impl Source for MemSource {
    ghost left = { λ s. Some s.left };

    ghost faults = { λ s. s.faults };

    /// Reads as many of the next bytes as the buffer and the pace allow. `Failed` comes exactly at the
    /// calls that were listed, and then no byte is taken.
    fn read(&mut self, buf: &mut [u8]) -> Result<usize, Failed>
        ensures fails { IsErr result ↔ IsTrue (is_failing self.old.fails self.old.calls) }
        ensures reads { IfOk result (λ n. n ≡ read_count self.old (length buf.old)) }
        ensures copied { IfOk result (λ n. buf.new ≡ take n self.old.left ++ drop n buf.old) }
        ensures after { IfOk result (λ n. self.new ≡ after_read self.old n) }
        ensures kept { OnErr result (buf.new ≡ buf.old) }
        ensures after_failed { OnErr result (self.new ≡ after_failed_read self.old) }
        ensures count { IfOk result (λ n. n ≤ length buf.old) }
        ensures taken { IfOk result (λ n.
            Takes (Some self.old.left) (Some self.new.left) (take n buf.new)) }
        ensures end { IfOk result (λ n. n ≡ 0 → length buf.old ≢ 0 → self.old.left ≡ []) }
        ensures failed { OnErr result (Rose self.old.faults self.new.faults) }
        ensures never_falls { self.old.faults ≤ self.new.faults }
    {
        let fails = is_listed(self.fails.as_slice(), self.calls);
        self.calls = self.calls.saturating_add(1);
        if fails {
            self.faults = self.faults.saturating_add(1);
            return Err(Failed);
        }
        let most = at_pace(self.pace, buf.len());
        Ok(self.bytes.give(buf, most))
    }
}

/// A sink that writes into a room in memory, and fails only where that is full.
///
/// Contracts see what was written, how many bytes the room has, and the count of faults.
#[derive(Debug, Drop)]
pub struct FixedSink {
    room: Vec<u8>,
    used: usize,
    faults: u64,
}

impl Model for FixedSink {
    ghost use Rattle.std.specs.Prelude.{◌≤◌, take, vec_len};
    ghost use Rattle.ow_base.specs.Fakes.{Filling};

    ghost Value = { Filling };

    ghost view = { λ s. record {
      written = take s.used s.room.items;
      room = vec_len s.room;
      faults = s.faults;
    } };

    ghost invariant = { λ s. s.used ≤ vec_len s.room };
}

impl FixedSink {
    /// A sink with a room of as many bytes as the vector has. Nothing is written yet.
    pub fn new(room: Vec<u8>) -> FixedSink
        ensures { result ≡ record { written = []; room = vec_len room; faults = 0 } }
    {
        FixedSink {
            room,
            used: 0,
            faults: 0,
        }
    }

    /// What was written.
    pub fn written(&self) -> &[u8]
        ensures { result.now ≡ self.now.written }
    {
        &self.room[..self.used]
    }

    /// How often it has failed.
    pub fn faults(&self) -> u64
        ensures { result ≡ self.now.faults }
    {
        self.faults
    }

    // Whether the room has no byte free.
    fn is_full(&self) -> bool
        ensures full { IsTrue result ↔ (length self.now.written ≡ self.now.room) }
        ensures within { length self.now.written ≤ self.now.room }
    {
        self.used == self.room.len()
    }

    // Counts one more fault.
    fn count_fault(&mut self)
        ensures counts { self.new ≡ after_failed_fill self.old }
        ensures never_falls { self.old.faults ≤ self.new.faults }
    {
        self.faults = self.faults.saturating_add(1);
    }

    // Takes as many bytes of a piece as there is room for.
    fn put(&mut self, bytes: &[u8]) -> usize
        ensures count { result ≡ fill_count self.old (length bytes.now) }
        ensures after { self.new ≡ after_fill self.old (take result bytes.now) }
    {
        let count = bytes.len().min(self.room.len() - self.used);
        let end = self.used + count;
        self.room[self.used..end].copy_from_slice(&bytes[..count]);
        self.used = end;
        count
    }
}

impl Sink for FixedSink {
    ghost written = { λ s. Some s.written };

    ghost faults = { λ s. s.faults };

    /// Writes as much of the piece as there is room for. `Failed` comes exactly where the room is full and
    /// the piece is not empty; it counts a fault, and then nothing is written.
    fn write(&mut self, bytes: &[u8]) -> Result<usize, Failed>
        ensures fails { IsErr result ↔ IsStuck bytes.now self.old.written self.old.room }
        ensures writes { IfOk result (λ n. n ≡ fill_count self.old (length bytes.now)) }
        ensures after { IfOk result (λ n. self.new ≡ after_fill self.old (take n bytes.now)) }
        ensures after_failed { OnErr result (self.new ≡ after_failed_fill self.old) }
        ensures count { IfOk result (λ n. n ≤ length bytes.now) }
        ensures some { IfOk result (λ n. length bytes.now ≢ 0 → n ≢ 0) }
        ensures written { IfOk result (λ n. self.new.written ≡ self.old.written ++ take n bytes.now) }
        ensures front { OnErr result
            (IsFront bytes.now (Some self.old.written) (Some self.new.written)) }
        ensures failed { OnErr result (Rose self.old.faults self.new.faults) }
        ensures never_falls { self.old.faults ≤ self.new.faults }
    {
        if self.is_full() && !bytes.is_empty() {
            self.count_fault();
            return Err(Failed);
        }
        Ok(self.put(bytes))
    }
}

/// A sink that writes into a room in memory, and fails at the calls that were listed and where the room is
/// full. No call takes memory.
///
/// Contracts see what was written, how many bytes the room has, the list, and the counts.
#[derive(Debug, Drop)]
pub struct MemSink {
    sink: FixedSink,
    fails: Vec<u32>,
    calls: u32,
    pace: usize,
}

impl Model for MemSink {
    ghost use Rattle.ow_base.specs.Fakes.{Writing};

    ghost Value = { Writing };

    ghost view = { λ s. record {
      written = s.sink.written;
      room = s.sink.room;
      fails = s.fails.items;
      calls = s.calls;
      faults = s.sink.faults;
      pace = s.pace;
    } };
}

impl MemSink {
    /// A sink with a room of as many bytes as the vector has, that fails exactly at the calls whose
    /// numbers, from 1, are listed, and where the room is full and the piece is not empty. Calls past
    /// number 2^32 - 1 are not counted.
    pub fn new(room: Vec<u8>, fails: Vec<u32>) -> MemSink
        ensures { result ≡ record {
          written = [];
          room = vec_len room;
          fails = fails.items;
          calls = 0;
          faults = 0;
          pace = 0;
        } }
    {
        MemSink {
            sink: FixedSink::new(room),
            fails,
            calls: 0,
            pace: 0,
        }
    }

    /// The same, but that one call takes at most so many bytes. 0 limits nothing.
    pub fn with_pace(mut self, pace: usize) -> MemSink
        ensures { result ≡ record self { pace = pace } }
    {
        self.pace = pace;
        self
    }

    /// What was written.
    pub fn written(&self) -> &[u8]
        ensures { result.now ≡ self.now.written }
    {
        self.sink.written()
    }

    /// How often it has failed.
    pub fn faults(&self) -> u64
        ensures { result ≡ self.now.faults }
    {
        self.sink.faults()
    }
}

impl Sink for MemSink {
    ghost written = { λ s. Some s.written };

    ghost faults = { λ s. s.faults };

    /// Writes as much of the piece as there is room for and the pace allows. `Failed` comes exactly at the
    /// calls that were listed and where the room is full and the piece is not empty; it counts a fault, and
    /// then nothing is written.
    fn write(&mut self, bytes: &[u8]) -> Result<usize, Failed>
        ensures fails { IsErr result ↔
            (IsTrue (is_failing self.old.fails self.old.calls)
            ⊎ IsStuck bytes.now self.old.written self.old.room) }
        ensures writes { IfOk result (λ n. n ≡ write_count self.old (length bytes.now)) }
        ensures after { IfOk result (λ n. self.new ≡ after_write self.old (take n bytes.now)) }
        ensures after_failed { OnErr result (self.new ≡ after_failed_write self.old) }
        ensures count { IfOk result (λ n. n ≤ length bytes.now) }
        ensures some { IfOk result (λ n. length bytes.now ≢ 0 → n ≢ 0) }
        ensures written { IfOk result (λ n. self.new.written ≡ self.old.written ++ take n bytes.now) }
        ensures front { OnErr result
            (IsFront bytes.now (Some self.old.written) (Some self.new.written)) }
        ensures failed { OnErr result (Rose self.old.faults self.new.faults) }
        ensures never_falls { self.old.faults ≤ self.new.faults }
    {
        let fails = is_listed(self.fails.as_slice(), self.calls);
        self.calls = self.calls.saturating_add(1);
        if fails {
            self.sink.count_fault();
            return Err(Failed);
        }
        let most = at_pace(self.pace, bytes.len());
        self.sink.write(&bytes[..most])
    }
}

// Whether the call after so many counted ones fails: it is counted, and its number is listed.
fn is_listed(fails: &[u32], calls: u32) -> bool
    ensures { result ≡ is_failing fails.now calls }
{
    match calls.checked_add(1) {
        Some(number) => fails.contains(&number),
        None => false,
    }
}

// How many bytes of so many one call may move.
fn at_pace(pace: usize, count: usize) -> usize
    ensures { result ≡ paced pace count }
{
    if pace == 0 { count } else { pace.min(count) }
}
