//! A terminal: a tape of the bytes written, and a display.
ghost use Rattle.std.specs.Prelude.{◌≡◌, ℕ, ◌^◌, ◌<◌, length, IfOk};
ghost use Rattle.ow_plant.specs.State.{silent_device, blanked, painted, put_on, with_cursor};

use crate::displays::Display;
use std::alloc::{AllocError, Global};
use std::marker::Model;

/// A terminal whose tape has room for a number of bytes that is fixed when it is made. Memory for them is taken then,
/// and none of it is written before its byte comes.
#[derive(Drop)]
pub(crate) struct Tty {
    bytes: Vec<u8>,
    display: Display,
}

impl Model for Tty {
    ghost use Rattle.std.specs.Vec.{vec_capacity};
    ghost use Rattle.ow_plant.specs.State.{Device};

    ghost Value = { Device };

    ghost view = { λ t. record { tape = t.bytes.items; room = vec_capacity t.bytes; display = t.display } };
}

impl Tty {
    /// A terminal with no room.
    pub(crate) fn new(alloc: Global) -> Tty
        ensures { result ≡ silent_device 0 }
    {
        Tty {
            bytes: Vec::new(alloc),
            display: Display::new(),
        }
    }

    /// A terminal with room for so many bytes.
    pub(crate) fn with_room(alloc: Global, room: usize) -> Result<Tty, AllocError>
        ensures { IfOk result (λ t. t ≡ silent_device room) }
    {
        let bytes = Vec::with_capacity(alloc, room)?;
        Ok(Tty {
            bytes,
            display: Display::new(),
        })
    }

    /// Writes a byte on the tape, where there must be room, and draws it.
    pub(crate) fn put(&mut self, byte: u8)
        requires { length self.old.tape < self.old.room }
        ensures { self.new ≡ put_on self.old byte }
    {
        self.bytes.push_reserved(byte);
        self.display.draw(byte);
    }

    /// The bytes written so far.
    pub(crate) fn tape(&self) -> &[u8]
        ensures { result.now ≡ self.now.tape }
    {
        self.bytes.as_slice()
    }

    /// How many bytes are written, where there is room for fewer than 2^32.
    pub(crate) fn count(&self) -> u32
        requires { self.now.room < 2 ^ 32 }
        ensures { result ≡ length self.now.tape }
    {
        self.bytes.len() as u32
    }

    /// Nothing is seen any more. The bytes written stay.
    pub(crate) fn blank(&mut self)
        ensures { self.new ≡ blanked self.old }
    {
        self.display = Display::new();
    }

    /// Sets all bytes of a row that is seen, below 24.
    pub(crate) fn paint(&mut self, row: u32, text: &[u8; 80])
        requires { row < 24 }
        ensures { self.new ≡ painted self.old row text.now }
    {
        self.display.paint(row, text);
    }

    /// Sets the cursor to a row below 24 and a column below 80.
    pub(crate) fn set_cursor(&mut self, row: u32, col: u32)
        requires row { row < 24 }
        requires col { col < 80 }
        ensures { self.new ≡ with_cursor self.old row col }
    {
        self.display.set_cursor(row, col);
    }

    /// What is seen.
    pub(crate) fn display(&self) -> &Display
        ensures { result.now ≡ self.now.display }
    {
        &self.display
    }
}
