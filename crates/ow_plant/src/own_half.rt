//! What a plant lends after a panic for stores.
ghost use Rattle.std.specs.Prelude.{◌≡◌, ℕ, ◌<◌, ◌↔◌, true, length, IsTrue, IsErr, OnOk, OnErr};
ghost use Rattle.phys_memory.specs.Halves.{is_among};
ghost use Rattle.ow_plant.specs.Lent.{lent_counted, lent_cursor_at, lent_painted, lent_put, lent_refused, lent_stored, lent_tty};
ghost use Rattle.ow_plant.specs.Owning.{refuses_own};
ghost use Rattle.ow_plant.specs.declared.refusal.Refusal.TheVariants.{Store};

use crate::lent::Lent;
use crate::points::PanicPoints;
use ow_base::{Panicked, WordSource};

/// Where the half of a kernel that takes over lies, and at which points its stores are refused.
#[derive(Clone, Copy)]
pub struct OwnPlace<'a> {
    pub(crate) points: &'a PanicPoints,
    pub(crate) trap: u32,
    /// The number of the first frame of the half.
    pub(crate) first: usize,
}

/// What a kernel that takes over may change: the words of its own half, and the two terminals. Each change is a store, which
/// may be refused.
///
/// A caller that wants to know what the plant is after the loan takes the value apart once, and builds it again of the same
/// two fields.
#[derive(Drop)]
pub struct Own<'a> {
    pub lent: &'a mut Lent,
    pub place: OwnPlace<'a>,
}

impl Own<'_> {
    /// Whether a frame, by its number in memory, is of the own half.
    pub fn has_frame(&self, frame: u32) -> bool
        ensures { result ≡ is_among self.now.place.first self.now.lent.now.own frame }
    {
        self.lent.has_frame(self.place.first, frame)
    }

    /// Sets the word of a frame of the own half, by the frame's number in memory, at a place below 1,024. `Panicked` comes
    /// exactly where a refusal stands or a point has come; then no word changes, and the refusal stands.
    pub fn store(&mut self, frame: u32, word: u32, value: u32) -> Result<(), Panicked>
        requires word { word < 1024 }
        requires frame { is_among self.old.place.first self.old.lent.now.own frame ≡ true }
        ensures exact { IsTrue (refuses_own self.old) ↔ IsErr result }
        ensures ok { OnOk result (self.new.lent.now ≡ lent_stored self.old.lent.now self.old.place.first frame word value) }
        ensures err { OnErr result (self.new.lent.now ≡ lent_refused self.old.lent.now Store) }
        ensures place { self.new.place ≡ self.old.place }
        ensures same_reference { self.new.lent.ghost_name ≡ self.old.lent.ghost_name }
    {
        self.count_store()?;
        self.lent.set_word(self.place.first, frame, word, value);
        Ok(())
    }

    /// Writes a byte on a terminal, 0 or 1, whose tape must have room. `Panicked` comes as from `store`; then no byte is
    /// written.
    pub fn put(&mut self, tty: u32, byte: u8) -> Result<(), Panicked>
        requires which { tty < 2 }
        requires room { length (lent_tty self.old.lent.now tty).tape < (lent_tty self.old.lent.now tty).room }
        ensures exact { IsTrue (refuses_own self.old) ↔ IsErr result }
        ensures ok { OnOk result (self.new.lent.now ≡ lent_put self.old.lent.now tty byte) }
        ensures err { OnErr result (self.new.lent.now ≡ lent_refused self.old.lent.now Store) }
        ensures place { self.new.place ≡ self.old.place }
        ensures same_reference { self.new.lent.ghost_name ≡ self.old.lent.ghost_name }
    {
        self.count_store()?;
        self.lent.put(tty, byte);
        Ok(())
    }

    /// Sets all bytes of a row, below 24, that is seen of a terminal, 0 or 1. `Panicked` comes as from `store`; then nothing
    /// changes that is seen.
    pub fn paint(&mut self, tty: u32, row: u32, text: &[u8; 80]) -> Result<(), Panicked>
        requires which { tty < 2 }
        requires row { row < 24 }
        ensures exact { IsTrue (refuses_own self.old) ↔ IsErr result }
        ensures ok { OnOk result (self.new.lent.now ≡ lent_painted self.old.lent.now tty row text.now) }
        ensures err { OnErr result (self.new.lent.now ≡ lent_refused self.old.lent.now Store) }
        ensures place { self.new.place ≡ self.old.place }
        ensures same_reference { self.new.lent.ghost_name ≡ self.old.lent.ghost_name }
    {
        self.count_store()?;
        self.lent.paint(tty, row, text);
        Ok(())
    }

    /// Sets the cursor of a terminal, 0 or 1, to a row below 24 and a column below 80. `Panicked` comes as from `store`; then
    /// the cursor stays.
    pub fn cursor(&mut self, tty: u32, row: u32, col: u32) -> Result<(), Panicked>
        requires which { tty < 2 }
        requires row { row < 24 }
        requires col { col < 80 }
        ensures exact { IsTrue (refuses_own self.old) ↔ IsErr result }
        ensures ok { OnOk result (self.new.lent.now ≡ lent_cursor_at self.old.lent.now tty row col) }
        ensures err { OnErr result (self.new.lent.now ≡ lent_refused self.old.lent.now Store) }
        ensures place { self.new.place ≡ self.old.place }
        ensures same_reference { self.new.lent.ghost_name ≡ self.old.lent.ghost_name }
    {
        self.count_store()?;
        self.lent.set_cursor(tty, row, col);
        Ok(())
    }

    /// Counts the store that is made next, or refuses it.
    fn count_store(&mut self) -> Result<(), Panicked>
        ensures exact { IsTrue (refuses_own self.old) ↔ IsErr result }
        ensures ok { OnOk result (self.new.lent.now ≡ lent_counted self.old.lent.now) }
        ensures err { OnErr result (self.new.lent.now ≡ lent_refused self.old.lent.now Store) }
        ensures place { self.new.place ≡ self.old.place }
        ensures same_reference { self.new.lent.ghost_name ≡ self.old.lent.ghost_name }
    {
        self.lent.count_store(self.place.points, self.place.trap)
    }
}

/// The words of the own half.
impl WordSource for Own<'_> {
    ghost use Rattle.ow_plant.specs.Owning.{own_words};

    ghost words = { own_words };

    fn load(&self, frame: u32, word: u32) -> Option<u32> {
        self.lent.load(self.place.first, frame, word)
    }
}
