//! Alignment of addresses, and loaded values as registers take them.

ghost use Rattle.std.specs.Prelude.{◌≡◌, ◌^◌, ◌<◌};
ghost use Rattle.ow_base.specs.UserStep.{size_of, is_aligned, extended};

use ow_base::Width;

// Whether an address is a multiple of the width.
pub(crate) fn is_aligned(address: u32, width: Width) -> bool
    ensures { result ≡ is_aligned address (size_of width) }
{
    match width {
        Width::Byte => true,
        Width::Half => address % 2 == 0,
        Width::Word => address % 4 == 0,
    }
}

// A loaded value as a register takes it, its sign extended where that is asked (manual, section 2.6).
pub(crate) fn extended(width: Width, signed: bool, value: u32) -> u32
    requires { value < 256 ^ size_of width }
    ensures { result ≡ extended width signed value }
{
    match width {
        Width::Byte if signed && value >= 0x80 => value + 0xffff_ff00,
        Width::Half if signed && value >= 0x8000 => value + 0xffff_0000,
        _ => value,
    }
}
