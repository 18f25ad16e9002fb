//! Reading all of a source, and writing texts whole.

ghost use Rattle.std.specs.Prelude.{◌≡◌, ◌<◌, ◌≤◌, length, vec_len, decimal, IfOk, OnErr, IsErr, IsErrOf};
ghost use Rattle.ow_base.specs.Lines.{escaped, escaped_byte, hex_digit};
ghost use Rattle.ow_base.specs.Outside.{Rose, OnTold, TakesAll, TakesOver, Writes};

use crate::outside::{Failed, Sink, Source};
use arrayvec::ArrayVec;
use itoa::Buffer;
use std::alloc::{AllocError, Global};
use thiserror::Error;

/// Writes all the bytes, in as many calls of the sink as it takes.
///
/// After `Failed`, which comes only where the sink failed, a front of them is written.
#[tactic(auto, using(crate::proofs::Writing::front_of_rest, crate::proofs::Writing::more_of_rest))]
pub fn put_all<K: Sink>(sink: &mut K, bytes: &[u8]) -> Result<(), Failed>
    ensures writes { Writes result bytes.now (K.written sink.old) (K.written sink.new) }
    ensures failed { OnErr result (Rose (K.faults sink.old) (K.faults sink.new)) }
    ensures never_falls { K.faults sink.old ≤ K.faults sink.new }
{
    let mut done = 0;
    while done < bytes.len() {
        match sink.write(&bytes[done..]) {
            Ok(count) => done += count,
            Err(Failed) => return Err(Failed),
        }
    }
    Ok(())
}

/// Writes a number in decimal, with no leading zeros. After `Failed`, as of `put_all`, a front of its
/// digits is written.
pub fn put_number<K: Sink>(sink: &mut K, number: u32) -> Result<(), Failed>
    ensures writes { Writes result (decimal number) (K.written sink.old) (K.written sink.new) }
    ensures failed { OnErr result (Rose (K.faults sink.old) (K.faults sink.new)) }
    ensures never_falls { K.faults sink.old ≤ K.faults sink.new }
{
    let mut buffer = Buffer::new();
    put_all(sink, buffer.format(number).as_bytes())
}

/// Writes the escape text of the bytes: 32 to 126 but the backslash stand for themselves, `\\` is a
/// backslash, `\n` is a line feed, and `\xHH`, in lower case, is any other byte.
///
/// After `Failed`, as of `put_all`, a front of that text is written.
#[tactic(auto, using(crate::proofs::Writing::front_at, crate::proofs::Writing::one_more))]
pub fn put_escaped<K: Sink>(sink: &mut K, bytes: &[u8]) -> Result<(), Failed>
    ensures writes { Writes result (escaped bytes.now) (K.written sink.old) (K.written sink.new) }
    ensures failed { OnErr result (Rose (K.faults sink.old) (K.faults sink.new)) }
    ensures never_falls { K.faults sink.old ≤ K.faults sink.new }
{
    for byte in bytes {
        match put_all(sink, escape(*byte).as_slice()) {
            Ok(()) => {}
            Err(Failed) => return Err(Failed),
        }
    }
    Ok(())
}

/// Why not all that a source has left was read.
#[derive(Debug, Drop, Error)]
pub enum ReadAllFault {
    #[error("read fault")]
    ReadFault,
    #[error("too large")]
    TooLarge,
    #[error("out of memory")]
    Memory(AllocError),
}

/// Reads to the end of a source, at most `limit` bytes.
///
/// `TooLarge` comes exactly where more than `limit` bytes came, and then one more than `limit` is taken.
/// `ReadFault` comes only where the source failed.
pub fn read_all<S: Source>(
    alloc: Global,
    source: &mut S,
    limit: usize,
) -> Result<Vec<u8>, ReadAllFault>
    ensures all { IfOk result (λ bytes. TakesAll (S.left source.old) (S.left source.new) bytes.items) }
    ensures small { IfOk result (λ bytes. vec_len bytes ≤ limit) }
    ensures too_large { IsErrOf result ReadAllFault.TooLarge →
        TakesOver limit (S.left source.old) (S.left source.new) }
    ensures read_fault { IsErrOf result ReadAllFault.ReadFault →
        Rose (S.faults source.old) (S.faults source.new) }
    ensures within { OnTold (S.left source.old) (λ bytes.
        length bytes ≤ limit → IsErrOf result ReadAllFault.TooLarge → ⊥) }
    ensures beyond { OnTold (S.left source.old) (λ bytes. limit < length bytes → IsErr result) }
    ensures never_falls { S.faults source.old ≤ S.faults source.new }
{
    let mut all = Vec::new(alloc);
    let mut buffer = [0; 1024];
    while all.len() <= limit {
        // A byte beyond the limit shows that there are too many.
        let most = (limit - all.len()).min(buffer.len() - 1) + 1;
        let count = match source.read(&mut buffer[..most]) {
            Ok(count) => count,
            Err(Failed) => return Err(ReadAllFault::ReadFault),
        };
        if count == 0 {
            return Ok(all);
        }
        all.extend_from_slice(&buffer[..count])
            .map_err(ReadAllFault::Memory)?;
    }
    Err(ReadAllFault::TooLarge)
}

// A byte in escape text.
#[tactic(auto, unfolding(crate::specs::Lines::escaped_byte))]
fn escape(byte: u8) -> ArrayVec<u8, 4>
    ensures { result.items ≡ escaped_byte byte }
{
    let mut text = ArrayVec::new();
    match byte {
        b'\\' => {
            text.push(b'\\');
            text.push(b'\\');
        }
        b'\n' => {
            text.push(b'\\');
            text.push(b'n');
        }
        32..=126 => text.push(byte),
        _ => {
            text.push(b'\\');
            text.push(b'x');
            text.push(digit(byte / 16));
            text.push(digit(byte % 16));
        }
    }
    text
}

// The digit of a number below 16, as `0-9a-f`.
fn digit(number: u8) -> u8
    requires { number < 16 }
    ensures { result ≡ hex_digit number }
{
    if number < 10 {
        b'0' + number
    } else {
        b'a' + (number - 10)
    }
}
