//! Lines of a key word and tokens.
ghost use Rattle.std.specs.Prelude.{◌≡◌, ◌≤◌, decimal, flat_map, OnErr};
ghost use Rattle.ow_base.specs.Lines.{number_line};
ghost use Rattle.ow_base.specs.Outside.{Rose, Writes};
ghost use Rattle.ow_report.specs.Writing.{token_text, next_token, line_text, numbers_line};

use itoa::Buffer;
use ow_base::{Failed, Sink, put_all, put_escaped};

/// A token of a line.
#[derive(Clone, Copy, Debug)]
pub(crate) enum Token<'a> {
    /// A word that is written as it is.
    Key(&'a [u8]),
    /// A number, in decimal.
    Number(u64),
    /// Bytes, in escape text.
    Escaped(&'a [u8]),
}

/// Writes a number in decimal.
fn put_count<K: Sink>(sink: &mut K, number: u64) -> Result<(), Failed>
    ensures writes { Writes result (decimal number) (K.written sink.old) (K.written sink.new) }
    ensures failed { OnErr result (Rose (K.faults sink.old) (K.faults sink.new)) }
    ensures never_falls { K.faults sink.old ≤ K.faults sink.new }
{
    let mut buffer = Buffer::new();
    put_all(sink, buffer.format(number).as_bytes())
}

/// Writes a token.
fn put_token<K: Sink>(sink: &mut K, token: Token<'_>) -> Result<(), Failed>
    ensures writes { Writes result (token_text token.entry) (K.written sink.old) (K.written sink.new) }
    ensures failed { OnErr result (Rose (K.faults sink.old) (K.faults sink.new)) }
    ensures never_falls { K.faults sink.old ≤ K.faults sink.new }
{
    match token {
        Token::Key(text) => put_all(sink, text),
        Token::Number(number) => put_count(sink, number),
        Token::Escaped(bytes) => put_escaped(sink, bytes),
    }
}

/// Writes a space and a token.
fn put_next<K: Sink>(sink: &mut K, token: Token<'_>) -> Result<(), Failed>
    ensures writes { Writes result (next_token token.entry) (K.written sink.old) (K.written sink.new) }
    ensures failed { OnErr result (Rose (K.faults sink.old) (K.faults sink.new)) }
    ensures never_falls { K.faults sink.old ≤ K.faults sink.new }
{
    match put_all(sink, b" ") {
        Ok(()) => put_token(sink, token),
        Err(Failed) => Err(Failed),
    }
}

/// Writes tokens, each behind a space.
fn put_tokens<K: Sink>(sink: &mut K, tokens: &[Token<'_>]) -> Result<(), Failed>
    ensures writes { Writes result (flat_map next_token tokens.now) (K.written sink.old) (K.written sink.new) }
    ensures failed { OnErr result (Rose (K.faults sink.old) (K.faults sink.new)) }
    ensures never_falls { K.faults sink.old ≤ K.faults sink.new }
{
    for token in tokens {
        match put_next(sink, *token) {
            Ok(()) => {}
            Err(Failed) => return Err(Failed),
        }
    }
    Ok(())
}

/// Writes a line: a key word and the tokens behind it.
pub(crate) fn put_line<K: Sink>(
    sink: &mut K,
    key: &[u8],
    tokens: &[Token<'_>],
) -> Result<(), Failed>
    ensures writes { Writes result (line_text key.now tokens.now) (K.written sink.old) (K.written sink.new) }
    ensures failed { OnErr result (Rose (K.faults sink.old) (K.faults sink.new)) }
    ensures never_falls { K.faults sink.old ≤ K.faults sink.new }
{
    match put_all(sink, key) {
        Ok(()) => {}
        Err(Failed) => return Err(Failed),
    }
    match put_tokens(sink, tokens) {
        Ok(()) => put_all(sink, b"\n"),
        Err(Failed) => Err(Failed),
    }
}

/// Writes a line of a key word and a number.
pub(crate) fn put_number_line<K: Sink>(sink: &mut K, key: &[u8], number: u32) -> Result<(), Failed>
    ensures writes { Writes result (number_line key.now number) (K.written sink.old) (K.written sink.new) }
    ensures failed { OnErr result (Rose (K.faults sink.old) (K.faults sink.new)) }
    ensures never_falls { K.faults sink.old ≤ K.faults sink.new }
{
    put_line(sink, key, &[Token::Number(u64::from(number))])
}

/// Writes a line of a key word and two numbers.
pub(crate) fn put_numbers_line<K: Sink>(
    sink: &mut K,
    key: &[u8],
    first: u32,
    second: u32,
) -> Result<(), Failed>
    ensures writes { Writes result (numbers_line key.now first second) (K.written sink.old) (K.written sink.new) }
    ensures failed { OnErr result (Rose (K.faults sink.old) (K.faults sink.new)) }
    ensures never_falls { K.faults sink.old ≤ K.faults sink.new }
{
    let first = Token::Number(u64::from(first));
    put_line(sink, key, &[first, Token::Number(u64::from(second))])
}
