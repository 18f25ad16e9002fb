//! What has words of memory.

ghost use Rattle.std.specs.Prelude.{◌≡◌, ◌<◌, ℕ, Option};

/// Memory that can be read: frames of 1,024 words each.
///
/// Contracts see the word at each frame and place, and none where there is no such frame.
pub trait WordSource {
    ghost words: { Self → ℕ → ℕ → Option ℕ };

    /// The word of a frame at a place below 1,024, or `None` exactly where there is no such frame.
    fn load(&self, frame: u32, word: u32) -> Option<u32>
        requires { word < 1024 }
        ensures { result ≡ words self.now frame word };
}
