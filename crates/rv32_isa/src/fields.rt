//! The fields of instructions: registers, immediates and offsets, each of its own range.

ghost use Rattle.std.specs.Prelude.{◌≡◌, ◌<◌, ◌%◌, ◌^◌};
ghost use Rattle.std.specs.Option.{SomeIff};
ghost use Rattle.ow_base.specs.Words.{sign_extended};
ghost use Rattle.rv32_isa.specs.Fields.{IsSigned, IsEvenSigned};

use std::marker::Model;

/// One of the registers x0 to x31.
#[derive(Clone, Copy, Debug, PartialEq, Eq)]
pub struct Register {
    number: u32,
}

impl Model for Register {
    ghost use Rattle.std.specs.Prelude.{ℕ, ◌<◌};

    ghost Value = { ℕ };

    ghost view = { λ r. r.number };

    ghost inverse = { λ n. record { number = n } };

    ghost invariant = { λ r. r.number < 32 };
}

impl Register {
    /// The register with this number; None where the number is 32 or more.
    pub const fn new(number: u32) -> Option<Register>
        ensures { SomeIff result (number < 32) number }
    {
        if number < 32 {
            Some(Register { number })
        } else {
            None
        }
    }

    /// The number of the register, 0 to 31.
    pub const fn number(self) -> u32
        ensures same { result ≡ self }
        ensures fits { result < 32 }
    {
        self.number
    }

    // The register with this number.
    pub(crate) const fn from_field(field: u32) -> Register
        requires { field < 32 }
        ensures { result ≡ field }
    {
        Register { number: field }
    }
}

/// An immediate of 12 bits (manual, section 2.2): a signed number from -2048 to 2047, as a word of 32
/// bits in two's complement.
#[derive(Clone, Copy, Debug, PartialEq, Eq)]
pub struct Immediate {
    word: u32,
}

impl Model for Immediate {
    ghost use Rattle.std.specs.Prelude.{ℕ};
    ghost use Rattle.rv32_isa.specs.Fields.{IsSigned};

    ghost Value = { ℕ };

    ghost view = { λ i. i.word };

    ghost inverse = { λ n. record { word = n } };

    ghost invariant = { λ i. IsSigned 12 i.word };
}

impl Immediate {
    /// The immediate that is this word, in two's complement; None outside -2048 to 2047.
    pub const fn new(word: u32) -> Option<Immediate>
        ensures { SomeIff result (IsSigned 12 word) word }
    {
        if word.wrapping_add(0x800) < 0x1000 {
            Some(Immediate { word })
        } else {
            None
        }
    }

    /// The immediate as a word in two's complement.
    pub const fn word(self) -> u32
        ensures same { result ≡ self }
        ensures fits { IsSigned 12 result }
    {
        self.word
    }

    // The immediate with these 12 bits.
    pub(crate) const fn extended(field: u32) -> Immediate
        requires { field < 2 ^ 12 }
        ensures { result ≡ sign_extended 12 field }
    {
        if field < 0x800 {
            Immediate { word: field }
        } else {
            Immediate {
                word: field + 0xffff_f000,
            }
        }
    }
}

/// How far a branch goes (manual, section 2.5): an even number of bytes from -4096 to 4094, as a word of
/// 32 bits in two's complement.
#[derive(Clone, Copy, Debug, PartialEq, Eq)]
pub struct BranchOffset {
    word: u32,
}

impl Model for BranchOffset {
    ghost use Rattle.std.specs.Prelude.{ℕ};
    ghost use Rattle.rv32_isa.specs.Fields.{IsEvenSigned};

    ghost Value = { ℕ };

    ghost view = { λ i. i.word };

    ghost inverse = { λ n. record { word = n } };

    ghost invariant = { λ i. IsEvenSigned 13 i.word };
}

impl BranchOffset {
    /// The offset that is this word, in two's complement; None where it is odd or outside -4096 to 4094.
    pub const fn new(word: u32) -> Option<BranchOffset>
        ensures { SomeIff result (IsEvenSigned 13 word) word }
    {
        if word % 2 == 0 && word.wrapping_add(0x1000) < 0x2000 {
            Some(BranchOffset { word })
        } else {
            None
        }
    }

    /// The offset as a word in two's complement.
    pub const fn word(self) -> u32
        ensures same { result ≡ self }
        ensures fits { IsEvenSigned 13 result }
    {
        self.word
    }

    // The offset with these 13 bits, the lowest of which is 0.
    pub(crate) const fn extended(field: u32) -> BranchOffset
        requires fits { field < 2 ^ 13 }
        requires even { field % 2 ≡ 0 }
        ensures { result ≡ sign_extended 13 field }
    {
        if field < 0x1000 {
            BranchOffset { word: field }
        } else {
            BranchOffset {
                word: field + 0xffff_e000,
            }
        }
    }
}

/// How far a jump goes (manual, section 2.5): an even number of bytes from -1048576 to 1048574, as a word
/// of 32 bits in two's complement.
#[derive(Clone, Copy, Debug, PartialEq, Eq)]
pub struct JumpOffset {
    word: u32,
}

impl Model for JumpOffset {
    ghost use Rattle.std.specs.Prelude.{ℕ};
    ghost use Rattle.rv32_isa.specs.Fields.{IsEvenSigned};

    ghost Value = { ℕ };

    ghost view = { λ i. i.word };

    ghost inverse = { λ n. record { word = n } };

    ghost invariant = { λ i. IsEvenSigned 21 i.word };
}

impl JumpOffset {
    /// The offset that is this word, in two's complement; None where it is odd or outside -1048576 to
    /// 1048574.
    pub const fn new(word: u32) -> Option<JumpOffset>
        ensures { SomeIff result (IsEvenSigned 21 word) word }
    {
        if word % 2 == 0 && word.wrapping_add(0x10_0000) < 0x20_0000 {
            Some(JumpOffset { word })
        } else {
            None
        }
    }

    /// The offset as a word in two's complement.
    pub const fn word(self) -> u32
        ensures same { result ≡ self }
        ensures fits { IsEvenSigned 21 result }
    {
        self.word
    }

    // The offset with these 21 bits, the lowest of which is 0.
    pub(crate) const fn extended(field: u32) -> JumpOffset
        requires fits { field < 2 ^ 21 }
        requires even { field % 2 ≡ 0 }
        ensures { result ≡ sign_extended 21 field }
    {
        if field < 0x10_0000 {
            JumpOffset { word: field }
        } else {
            JumpOffset {
                word: field + 0xffe0_0000,
            }
        }
    }
}

/// The upper 20 bits of a word (manual, section 2.4): the immediate of LUI and AUIPC, which stands for
/// 4,096 times itself.
#[derive(Clone, Copy, Debug, PartialEq, Eq)]
pub struct UpperImmediate {
    number: u32,
}

impl Model for UpperImmediate {
    ghost use Rattle.std.specs.Prelude.{ℕ, ◌<◌, ◌%◌, ◌^◌};

    ghost Value = { ℕ };

    ghost view = { λ i. i.number };

    ghost inverse = { λ n. record { number = n } };

    ghost invariant = { λ i. i.number < 2 ^ 20 };
}

impl UpperImmediate {
    /// The upper 20 bits that are this number; None where it is 2^20 or more.
    pub const fn new(number: u32) -> Option<UpperImmediate>
        ensures { SomeIff result (number < 2 ^ 20) number }
    {
        if number < 0x10_0000 {
            Some(UpperImmediate { number })
        } else {
            None
        }
    }

    /// The 20 bits as a number.
    pub const fn number(self) -> u32
        ensures same { result ≡ self }
        ensures fits { result < 2 ^ 20 }
    {
        self.number
    }

    // The upper 20 bits that are this number.
    pub(crate) const fn from_field(field: u32) -> UpperImmediate
        requires { field < 2 ^ 20 }
        ensures { result ≡ field }
    {
        UpperImmediate { number: field }
    }
}

/// By how many bits a shift goes (manual, section 2.4): 0 to 31.
#[derive(Clone, Copy, Debug, PartialEq, Eq)]
pub struct ShiftAmount {
    number: u32,
}

impl Model for ShiftAmount {
    ghost use Rattle.std.specs.Prelude.{ℕ, ◌<◌};

    ghost Value = { ℕ };

    ghost view = { λ a. a.number };

    ghost inverse = { λ n. record { number = n } };

    ghost invariant = { λ a. a.number < 32 };
}

impl ShiftAmount {
    /// A shift by this many bits; None where it is 32 or more.
    pub const fn new(number: u32) -> Option<ShiftAmount>
        ensures { SomeIff result (number < 32) number }
    {
        if number < 32 {
            Some(ShiftAmount { number })
        } else {
            None
        }
    }

    /// The number of bits.
    pub const fn number(self) -> u32
        ensures same { result ≡ self }
        ensures fits { result < 32 }
    {
        self.number
    }

    // The shift by this many bits.
    pub(crate) const fn from_field(field: u32) -> ShiftAmount
        requires { field < 32 }
        ensures { result ≡ field }
    {
        ShiftAmount { number: field }
    }
}
