//! Numerals: decimal without leading zeros, and eight hexadecimal digits.

ghost use Rattle.std.specs.Prelude.{◌≡◌, ℕ, ◌+◌, ◌*◌, ◌^◌, ◌<◌, ◌≤◌, [], ◌∷◌, length, slice_index, false, IsTrue, IfSome, IfNone, decimal};
ghost use Rattle.std.specs.Char.{digit_value};
ghost use Rattle.std.specs.Str.Parse.{IsNumeral, digits_value};
ghost use Rattle.ow_base.specs.Lines.{hex_digit, hex_digit_at, hex8};

// A number with one more decimal digit behind it, where the byte is a digit and the number is below 2 to
// the 32.
fn with_digit(value: u32, byte: u8) -> Option<u32>
    ensures found { IfSome result (λ n. (digit_value byte < 10) × (n ≡ value * 10 + digit_value byte)) }
    ensures none { IfNone result (digit_value byte < 10 → value * 10 + digit_value byte < 2 ^ 32 → ⊥) }
{
    if !byte.is_ascii_digit() {
        return None;
    }
    let tens = value.checked_mul(10)?;
    tens.checked_add(u32::from(byte - b'0'))
}

// The value of decimal digits, of which there is some, where it is below 2 to the 32.
fn value_of(digits: &[u8]) -> Option<u32>
    ensures found { IfSome result (λ n. IsNumeral 10 digits.now × (n ≡ digits_value 10 digits.now)) }
    ensures none { IfNone result (IsNumeral 10 digits.now → digits_value 10 digits.now < 2 ^ 32 → ⊥) }
{
    if digits.is_empty() {
        return None;
    }
    let mut value: u32 = 0;
    for digit in digits {
        let Some(more) = with_digit(value, *digit) else {
            return None;
        };
        value = more;
    }
    Some(value)
}

// A 0 stands before something.
fn begins_with_zero(text: &[u8]) -> bool
    ensures zero { IsTrue result → (1 < length text.now) × (slice_index text.now 0 ≡ 48) }
    ensures none { result ≡ false → slice_index text.now 0 ≡ 48 → length text.now ≤ 1 }
{
    text.len() > 1 && text[0] == b'0'
}

/// The number that a text spells in decimal digits, the highest first.
///
/// `None` comes where the text is no number below 2 to the 32, and where a 0 stands before other digits.
pub fn decimal(text: &[u8]) -> Option<u32>
    ensures found { IfSome result (λ n. text.now ≡ decimal n) }
    ensures small { IfSome result (λ n. n < 2 ^ 32) }
    ensures none { IfNone result ((n : ℕ) → n < 2 ^ 32 → text.now ≡ decimal n → ⊥) }
{
    let Some(value) = value_of(text) else {
        return None;
    };
    if begins_with_zero(text) {
        return None;
    }
    Some(value)
}

fn hex_digit(byte: u8) -> Option<u32>
    ensures found { IfSome result (λ d. (d < 16) × (byte ≡ hex_digit d)) }
    ensures none { IfNone result ((d : ℕ) → d < 16 → byte ≡ hex_digit d → ⊥) }
{
    match byte {
        b'0'..=b'9' => Some(u32::from(byte - b'0')),
        b'a'..=b'f' => Some(u32::from(byte - b'a') + 10),
        _ => None,
    }
}

// Half a word, from its four digits.
fn hex4(a: u8, b: u8, c: u8, d: u8) -> Option<u32>
    ensures small { IfSome result (λ h. h < 65536) }
    ensures found { IfSome result (λ h. a ∷ b ∷ c ∷ d ∷ [] ≡ hex_digit_at 3 h ∷ hex_digit_at 2 h ∷ hex_digit_at 1 h ∷ hex_digit_at 0 h ∷ []) }
    ensures none { IfNone result ((h : ℕ) → a ∷ b ∷ c ∷ d ∷ [] ≡ hex_digit_at 3 h ∷ hex_digit_at 2 h ∷ hex_digit_at 1 h ∷ hex_digit_at 0 h ∷ [] → ⊥) }
{
    let high = hex_digit(a)? * 16 + hex_digit(b)?;
    let low = hex_digit(c)? * 16 + hex_digit(d)?;
    Some(high * 256 + low)
}

/// The word that a text spells as eight digits of `0-9a-f`, the highest first. `None` comes for all
/// other texts.
pub fn hex8(text: &[u8]) -> Option<u32>
    ensures found { IfSome result (λ w. text.now ≡ hex8 w) }
    ensures small { IfSome result (λ w. w < 2 ^ 32) }
    ensures none { IfNone result ((w : ℕ) → w < 2 ^ 32 → text.now ≡ hex8 w → ⊥) }
{
    let [a, b, c, d, e, f, g, h] = text else {
        return None;
    };
    let Some(high) = hex4(*a, *b, *c, *d) else {
        return None;
    };
    let Some(low) = hex4(*e, *f, *g, *h) else {
        return None;
    };
    Some(high * 65536 + low)
}
