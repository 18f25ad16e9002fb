//! One line of a world text: its tokens and fields.

ghost use Rattle.std.specs.Prelude.{◌≡◌, ℕ, ◌+◌, ◌<◌, ◌++◌, List, [], ◌∷◌, length, map, filter_map, IfSome, IfNone, IfOk};
ghost use Rattle.std.specs.List.{list_all, list_any};
ghost use Rattle.world_file.specs.WorldLines.{pieces, tokens, token_at, fields, key, number_of, word_of, is_visible, is_name, is_number, is_word, is_empty, number_at, words_of};

use crate::key::Key;
use ow_base::{decimal, hex8};
use std::alloc::{AllocError, Global};
use std::marker::Model;

/// The piece before the first separator, and the text behind it. `None` comes where the whole text is one piece.
pub fn cut(separator: u8, text: &[u8]) -> Option<(&[u8], &[u8])>
    ensures found { IfSome result (λ p. pieces separator text.now ≡ p.0.now ∷ pieces separator p.1.now) }
    ensures whole { IfNone result (pieces separator text.now ≡ text.now ∷ []) }
    ensures shorter { IfSome result (λ p. length p.1.now < length text.now) }
{
    for (i, byte) in text.iter().enumerate() {
        if *byte == separator {
            return Some((&text[..i], &text[i + 1..]));
        }
    }
    None
}

// The pieces of a line between single spaces.
fn tokens_in(alloc: Global, line: &[u8]) -> Result<Vec<&[u8]>, AllocError>
    ensures { IfOk result (λ all. map (λ token. token.now) all.items ≡ tokens line.now) }
{
    let mut all = Vec::new(alloc);
    let mut rest = line;
    while let Some((token, others)) = cut(b' ', rest) {
        all.push(token)?;
        rest = others;
    }
    all.push(rest)?;
    Ok(all)
}

/// The number that a field spells in decimal digits. `None` comes where it spells none below 2 to the 32.
pub fn number_of(field: &[u8]) -> Option<u32>
    ensures { result ≡ number_of field.now }
{
    decimal(field)
}

/// The word that a field spells as eight digits. `None` comes where it spells none.
pub fn word_of(field: &[u8]) -> Option<u32>
    ensures { result ≡ word_of field.now }
{
    hex8(field)
}

fn is_visible(byte: u8) -> bool
    ensures { result ≡ is_visible byte }
{
    (33..=126).contains(&byte)
}

fn are_visible(bytes: &[u8]) -> bool
    ensures { result ≡ list_all is_visible bytes.now }
{
    bytes.iter().all(|byte| is_visible(*byte))
}

/// A name is 1 to 24 bytes of 33 to 126.
#[tactic(auto, unfolding(crate::specs::WorldLines::is_name))]
pub fn is_name(name: &[u8]) -> bool
    ensures { result ≡ is_name name.now }
{
    (1..=24).contains(&name.len()) && are_visible(name)
}

fn is_empty(token: &[u8]) -> bool
    ensures { result ≡ is_empty token.now }
{
    token.is_empty()
}

fn has_empty(tokens: &[&[u8]]) -> bool
    ensures { result ≡ list_any (λ token. is_empty token.now) tokens.now }
{
    tokens.iter().any(|token| is_empty(*token))
}

fn is_word(field: &[u8]) -> bool
    ensures { result ≡ is_word field.now }
{
    word_of(field).is_some()
}

fn are_words(fields: &[&[u8]]) -> bool
    ensures { result ≡ list_all (λ field. is_word field.now) fields.now }
{
    fields.iter().all(|field| is_word(*field))
}

// These words, and behind them those that the fields are.
fn append_words(before: Vec<u32>, fields: &[&[u8]]) -> Result<Vec<u32>, AllocError>
    ensures { IfOk result (λ all. all.items ≡ before.items ++ filter_map (λ field. word_of field.now) fields.now) }
{
    let mut all = before;
    for field in fields {
        if let Some(word) = word_of(*field) {
            all.push(word)?;
        }
    }
    Ok(all)
}

/// A line of a world text, without its line feed. Contracts see its bytes.
#[derive(Drop)]
pub struct Line<'a> {
    bytes: &'a [u8],
    parts: Vec<&'a [u8]>,
}

impl<'a> Model for Line<'a> {
    ghost use Rattle.std.specs.Prelude.{◌≡◌, ℕ, List, map};
    ghost use Rattle.world_file.specs.WorldLines.{tokens};

    ghost Value = { List ℕ };

    ghost view = { λ l. l.bytes.now };

    ghost invariant = { λ l. map (λ token. token.now) l.parts.items ≡ tokens l.bytes.now };
}

impl<'a> Line<'a> {
    /// The line of these bytes.
    pub fn new(alloc: Global, bytes: &'a [u8]) -> Result<Line<'a>, AllocError>
        ensures { IfOk result (λ line. line ≡ bytes.now) }
    {
        let parts = tokens_in(alloc, bytes)?;
        Ok(Line { bytes, parts })
    }

    /// All its bytes.
    pub fn bytes(&self) -> &'a [u8]
        ensures { result.now ≡ self.now }
    {
        self.bytes
    }

    /// A token of it, the first being token 0. It is empty where there is none.
    pub fn token(&self, place: usize) -> &'a [u8]
        ensures { result.now ≡ token_at place self.now }
    {
        match self.parts.get(place) {
            Some(token) => *token,
            None => b"",
        }
    }

    /// What its first token makes it.
    pub fn key(&self) -> Key
        ensures { result ≡ key self.now }
    {
        Key::of(self.token(0))
    }

    /// How many tokens stand behind the first.
    pub fn field_count(&self) -> usize
        ensures { result ≡ length (fields self.now) }
    {
        self.parts.len().saturating_sub(1)
    }

    // The tokens behind the first.
    fn fields(&self) -> &[&'a [u8]]
        ensures { map (λ field. field.now) result.now ≡ fields self.now }
    {
        &self.parts[self.parts.len().min(1)..]
    }

    /// One of its tokens is empty.
    pub fn has_empty_token(&self) -> bool
        ensures { result ≡ list_any is_empty (tokens self.now) }
    {
        has_empty(&self.parts)
    }

    /// The tokens behind the first are words of eight digits each.
    pub fn has_words(&self) -> bool
        ensures { result ≡ list_all is_word (fields self.now) }
    {
        are_words(self.fields())
    }

    /// A token of it is a numeral from the lowest to the highest number.
    pub fn has_number(&self, place: usize, lowest: u32, highest: u32) -> bool
        ensures { result ≡ is_number lowest highest (token_at place self.now) }
    {
        match number_of(self.token(place)) {
            Some(number) => (lowest..=highest).contains(&number),
            None => false,
        }
    }

    /// The number that a token of it is, 0 where it is none.
    pub fn number(&self, place: usize) -> u32
        ensures { result ≡ number_at place self.now }
    {
        number_of(self.token(place)).unwrap_or(0)
    }

    /// These words, and behind them those that are eight digits behind its first.
    #[tactic(auto, unfolding(crate::specs::WorldLines::words_of), using(crate::proofs::WorldWords::words_of_map))]
    pub fn append_to(&self, before: Vec<u32>) -> Result<Vec<u32>, AllocError>
        ensures { IfOk result (λ all. all.items ≡ before.items ++ words_of self.now) }
    {
        append_words(before, self.fields())
    }
}
