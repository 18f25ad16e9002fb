//! The record of a file.

ghost use Rattle.std.specs.Prelude.{◌≡◌, ◌≢◌, ℕ, ◌^◌, ◌<◌, ◌≤◌, ◌↔◌, List, length, take, All, EachIndex, slice_index, slice_set, IsTrue, IfSome, IfNone};
ghost use Rattle.record_layouts.specs.declared.file.FileRec.{FileRec};
ghost use Rattle.ow_base.specs.World.{IsName};
ghost use Rattle.record_layouts.specs.Spelling.{AreZero};
ghost use Rattle.record_layouts.specs.File.{FitsState, FitsFile, IsFile, file_in, file_on_disk, is_present};

use crate::packing::{pack, unpack};
use crate::spelling::are_zero;
use ow_base::{is_sealed, put_seal};

const KIND: u32 = 0x4649_4c45;

// The state of a file that there is.
const PRESENT: u32 = 1;

// The most bytes of a name.
const NAME_BYTES: usize = 24;

// The most pages of a file.
const PAGES: usize = 64;

// The most data sectors of a disk.
const SECTORS: u32 = 2048;

/// A file. In state 0 there is none, and all else is 0; in state 1 there is one.
///
/// Its name, 1 to 24 bytes of 33 to 126, is the first `name_len` bytes of `name`. `size` counts its bytes, and
/// `kept` its pages, at most 64; of each of these the first words of `sectors` have the data sector, below 2,048.
/// The bytes and sectors behind are 0.
#[derive(Clone, Copy, Debug, PartialEq, Eq)]
pub struct FileRec {
    pub state: u32,
    pub name_len: u32,
    pub name: [u8; 24],
    pub size: u32,
    pub kept: u32,
    pub sectors: [u32; 64],
}

impl FileRec {
    /// There is a file.
    pub fn is_present(&self) -> bool
        ensures { result ≡ is_present self.now }
    {
        self.state == PRESENT
    }

    /// The words of the record. The fields are in their ranges.
    pub fn to_words(&self) -> [u32; 96]
        requires { FitsFile self.now }
        ensures { IsFile result self.now }
    {
        let mut words = [0; 96];
        words[0] = KIND;
        words[1] = self.state;
        words[2] = self.name_len;
        words[9] = self.size;
        words[10] = self.kept;
        words[11..75].copy_from_slice(&self.sectors);
        pack(&mut words[3..9], &self.name);
        put_seal(&mut words);
        words
    }

    /// The file whose record the words are. `None` comes where they are no record of a file: of another kind, with
    /// a field outside its range, a word that is not used and not 0, or a wrong seal.
    pub fn from_words(words: &[u32; 96]) -> Option<FileRec>
        ensures found { IfSome result (λ file. IsFile words.now file) }
        ensures none { IfNone result ((file : FileRec) → IsFile words.now file → ⊥) }
        ensures read { result ≡ file_in words.now }
    {
        if words[0] != KIND || !are_zero(words, 75, 95) || !is_sealed(words) {
            return None;
        }
        let mut name = [0; 24];
        unpack(&words[3..9], &mut name);
        let mut sectors = [0; 64];
        sectors.copy_from_slice(&words[11..75]);
        let file = FileRec {
            state: words[1],
            name_len: words[2],
            name,
            size: words[9],
            kept: words[10],
            sectors,
        };
        if file.fits() { Some(file) } else { None }
    }

    /// The file whose record the words are, where each of its data sectors is one of a disk of so many.
    pub(crate) fn on_disk(words: &[u32; 96], sectors: u32) -> Option<FileRec>
        ensures read { result ≡ file_on_disk sectors words.now }
        ensures fits { IfSome result FitsFile }
    {
        let file = FileRec::from_words(words)?;
        if file.is_on_disk(sectors) {
            Some(file)
        } else {
            None
        }
    }

    fn fits(&self) -> bool
        ensures { IsTrue result ↔ FitsFile self.now }
    {
        self.name_len as usize <= NAME_BYTES
            && self.state_fits()
            && self.name_ends()
            && self.kept as usize <= PAGES
            && self.is_on_disk(SECTORS)
            && are_zero(&self.sectors, self.kept as usize, PAGES)
    }

    fn state_fits(&self) -> bool
        requires { self.now.name_len ≤ 24 }
        ensures { IsTrue result ↔ FitsState self.now }
    {
        match self.state {
            0 => self.name_len == 0 && self.size == 0 && self.kept == 0,
            1 => is_name(&self.name[..self.name_len as usize]),
            _ => false,
        }
    }

    fn name_ends(&self) -> bool
        requires { self.now.name_len ≤ 24 }
        ensures { IsTrue result ↔ AreZero self.now.name self.now.name_len 24 }
    {
        are_empty(&self.name[self.name_len as usize..])
    }

    fn is_on_disk(&self, sectors: u32) -> bool
        requires { self.now.kept ≤ 64 }
        ensures { IsTrue result ↔ All (λ sector. sector < sectors) (take self.now.kept self.now.sectors) }
    {
        self.sectors[..self.kept as usize]
            .iter()
            .all(|sector| *sector < sectors)
    }
}

/// A law; the function does nothing. Words are the record of one file at most, a file has one record, and with
/// one word changed to another it is the record of no file.
pub const fn files_are_spelled_once()
    ensures value { (words : List ℕ) (a b : FileRec) → IsFile words a → IsFile words b → a ≡ b }
    ensures words { (some others : List ℕ) (file : FileRec) → IsFile some file → IsFile others file → some ≡ others }
    ensures changed { (words : List ℕ) (file : FileRec) → IsFile words file → (i value : ℕ) → i < 96 → value < 2 ^ 32
        → value ≢ slice_index words i → (other : FileRec) → IsFile (slice_set words i value) other → ⊥ }
{}

// The bytes are a name: 1 to 24 of them, each 33 to 126.
fn is_name(bytes: &[u8]) -> bool
    ensures { IsTrue result ↔ IsName bytes.now }
{
    !bytes.is_empty()
        && bytes.len() <= NAME_BYTES
        && bytes.iter().all(|byte| byte.is_ascii_graphic())
}

fn are_empty(bytes: &[u8]) -> bool
    ensures { IsTrue result ↔ EachIndex bytes.now (λ k. slice_index bytes.now k ≡ 0) }
{
    bytes.iter().all(|byte| *byte == 0)
}
