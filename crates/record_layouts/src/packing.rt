//! Bytes in words, four to a word, the first lowest.

ghost use Rattle.std.specs.Prelude.{◌≡◌, ◌*◌, length};
ghost use Rattle.record_layouts.specs.Packing.{ArePacked};

// Puts bytes into words, which they fill.
pub(crate) fn pack(words: &mut [u32], bytes: &[u8])
    requires { length bytes.now ≡ 4 * length words.old }
    ensures { ArePacked words.new bytes.now }
{
    for (k, word) in words.iter_mut().enumerate() {
        let first = 4 * k;
        *word = u32::from_le_bytes([
            bytes[first],
            bytes[first + 1],
            bytes[first + 2],
            bytes[first + 3],
        ]);
    }
}

// Takes the bytes out of words, as many as there are in them.
pub(crate) fn unpack(words: &[u32], bytes: &mut [u8])
    requires { length bytes.old ≡ 4 * length words.now }
    ensures { ArePacked words.now bytes.new }
{
    for (k, word) in words.iter().enumerate() {
        let first = 4 * k;
        bytes[first..first + 4].copy_from_slice(&word.to_le_bytes());
    }
}
