//! The hand-over of a panic: its value, and the words that spell it.

ghost use Rattle.std.specs.Prelude.{◌≡◌, ◌≢◌, ℕ, ◌^◌, ◌<◌, ◌↔◌, List, length, take, drop, slice_index, slice_set, IsTrue, IfSome, IfNone};
ghost use Rattle.panic_handover.specs.declared.hand_over.HandOver.{HandOver};
ghost use Rattle.panic_handover.specs.HandOver.{came_word, zero_bank, FitsHandOver, IsHandOver, hand_over_in};

use ow_base::{Bank, Came, Regs, is_sealed, put_seal};

// The word that begins a hand-over.
const KIND: u32 = 0x4841_4e44;

/// What the machine hands over when a kernel panics.
#[derive(Clone, Copy, Debug, PartialEq, Eq)]
pub struct HandOver {
    /// The number of the trap that broke.
    pub trap: u32,
    /// The process that the processor came from, at most 256, and 0 for none.
    pub pid: u32,
    /// How the processor had come into the kernel.
    pub came: Came,
    /// The pc and the registers that it came with: all 0 where it came from the kernel, or to close the run with no
    /// process in user mode.
    pub bank: Bank,
}

// The word for how the processor came.
fn came_word(came: Came) -> u32
    ensures { result ≡ came_word came }
{
    match came {
        Came::Kernel => 0,
        Came::User => 1,
        Came::Call => 2,
        Came::Closing => 3,
    }
}

// How the processor came, by its word. `None` comes for a word that tells no way.
fn came_of(word: u32) -> Option<Came>
    ensures found { IfSome result (λ came. word ≡ came_word came) }
    ensures none { IfNone result ((came : Came) → word ≡ came_word came → ⊥) }
{
    match word {
        0 => Some(Came::Kernel),
        1 => Some(Came::User),
        2 => Some(Came::Call),
        3 => Some(Came::Closing),
        _ => None,
    }
}

// The pc and all registers are 0.
fn is_zero(bank: &Bank) -> bool
    ensures { IsTrue result ↔ bank.now ≡ zero_bank }
{
    *bank
        == Bank {
            pc: 0,
            regs: Regs::new(),
        }
}

// The registers in a hand-over.
fn regs_in(words: &[u32; 40]) -> Regs
    ensures { result ≡ take 31 (drop 5 words.now) }
{
    let mut regs = [0; 31];
    regs.copy_from_slice(&words[5..36]);
    Regs::from(regs)
}

impl HandOver {
    // The pid is one, and the bank is 0 where no program had been running.
    fn fits(&self) -> bool
        ensures { IsTrue result ↔ FitsHandOver self.now }
    {
        let ran = match self.came {
            Came::Kernel => false,
            Came::User | Came::Call => true,
            Came::Closing => self.pid != 0,
        };
        self.pid <= 256 && (ran || is_zero(&self.bank))
    }

    /// The words of the hand-over. The value can be spelled: the pid is at most 256, and the bank is 0 where no program
    /// had been running.
    pub fn to_words(&self) -> [u32; 40]
        requires { FitsHandOver self.now }
        ensures { IsHandOver result self.now }
    {
        let mut words = [0; 40];
        words[0] = KIND;
        words[1] = self.trap;
        words[2] = self.pid;
        words[3] = came_word(self.came);
        words[4] = self.bank.pc;
        words[5..36].copy_from_slice(self.bank.regs.words());
        put_seal(&mut words);
        words
    }

    /// The hand-over that the words spell. `None` comes where they spell none: of another kind, with a word that tells
    /// no way to come, a value that cannot be spelled, an unused word that is not 0, or a wrong seal.
    pub fn from_words(words: &[u32; 40]) -> Option<HandOver>
        ensures found { IfSome result (λ hand_over. IsHandOver words.now hand_over) }
        ensures none { IfNone result ((hand_over : HandOver) → IsHandOver words.now hand_over → ⊥) }
        ensures read { result ≡ hand_over_in words.now }
    {
        if words[0] != KIND || words[36..39] != [0; 3] || !is_sealed(words) {
            return None;
        }
        let Some(came) = came_of(words[3]) else {
            return None;
        };
        let hand_over = HandOver {
            trap: words[1],
            pid: words[2],
            came,
            bank: Bank {
                pc: words[4],
                regs: regs_in(words),
            },
        };
        if hand_over.fits() {
            Some(hand_over)
        } else {
            None
        }
    }
}

/// A law; the function does nothing. Words spell one hand-over at most, a hand-over has one spelling, and with one
/// word changed to another it spells none.
pub const fn hand_overs_are_spelled_once()
    ensures value { (words : List ℕ) (a b : HandOver) → IsHandOver words a → IsHandOver words b → a ≡ b }
    ensures words { (some others : List ℕ) (hand_over : HandOver) → IsHandOver some hand_over → IsHandOver others hand_over → some ≡ others }
    ensures changed { (words : List ℕ) (hand_over : HandOver) → IsHandOver words hand_over → (i value : ℕ) → i < 40 → value < 2 ^ 32
        → value ≢ slice_index words i → (other : HandOver) → IsHandOver (slice_set words i value) other → ⊥ }
{}
