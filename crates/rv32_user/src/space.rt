//! Memory as a program sees it.

ghost use Rattle.std.specs.Prelude.{◌≡◌, ◌%◌, ◌^◌, ◌<◌, Ok, Err, OnOk, OnErr, IfOk, IfErr};
ghost use Rattle.ow_base.specs.UserStep.{Spaces, size_of};

use ow_base::{Fault, Width};

/// Memory as a program sees it, by addresses of bytes.
///
/// Its meaning is an image and three definitions on images, which say what a fetch, a load and a store
/// answer, and for a store that is Ok also the image after it. Every other call leaves the image as it is.
pub trait Space {
    ghost Image: { Type 0 };

    ghost image: { Self → Image };

    ghost space: { Spaces Image };

    /// The word of the instruction at an address, a multiple of four, or the fault that fetching raises.
    fn fetch(&mut self, va: u32) -> Result<u32, Fault>
        requires { va % 4 ≡ 0 }
        ensures answer { result ≡ space.fetched (image self.old) va }
        ensures same { image self.new ≡ image self.old };

    /// The bytes at an address, a multiple of the width, the lowest first and zero-extended, or the fault
    /// that loading raises.
    fn load(&mut self, va: u32, width: Width) -> Result<u32, Fault>
        requires { va % size_of width ≡ 0 }
        ensures answer { result ≡ space.loaded (image self.old) va width }
        ensures fits { IfOk result (λ value. value < 256 ^ size_of width) }
        ensures same { image self.new ≡ image self.old };

    /// Writes the low bytes of a value at an address, a multiple of the width, or answers the fault that
    /// storing raises, and then writes nothing.
    fn store(&mut self, va: u32, width: Width, value: u32) -> Result<(), Fault>
        requires { va % size_of width ≡ 0 }
        ensures ok { OnOk result (space.stored (image self.old) va width value ≡ Ok (image self.new)) }
        ensures err { IfErr result (λ fault. space.stored (image self.old) va width value ≡ Err fault) }
        ensures same { OnErr result (image self.new ≡ image self.old) };
}
