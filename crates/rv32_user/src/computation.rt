//! What the instructions compute that name registers alone.

ghost use Rattle.std.specs.Prelude.{◌≡◌, ◌<◌, true, nat_lt};
ghost use Rattle.ow_base.specs.UserStep.{Sets, register, signed_lt, one_if, shifted_right_signed};
ghost use Rattle.rv32_isa.specs.Table.{is_computation};
ghost use Rattle.rv32_isa.specs.Meaning.{act};

use ow_base::Regs;
use rv32_isa::{Instr, Register};

// The register that an instruction sets, and the value that it computes for it (manual, section 2.4).
pub(crate) fn computed(instr: Instr, regs: &Regs, pc: u32) -> (Register, u32)
    requires { is_computation instr ≡ true }
    ensures { Sets result.0 result.1 ≡ act instr regs.now pc }
{
    match instr {
        Instr::Lui { rd, imm } => (rd, imm.number() << 12),
        Instr::Auipc { rd, imm } => (rd, pc.wrapping_add(imm.number() << 12)),
        Instr::Addi { rd, rs1, imm } => (rd, read(regs, rs1).wrapping_add(imm.word())),
        Instr::Slti { rd, rs1, imm } => (rd, signed_less(read(regs, rs1), imm.word())),
        Instr::Sltiu { rd, rs1, imm } => (rd, less(read(regs, rs1), imm.word())),
        Instr::Xori { rd, rs1, imm } => (rd, read(regs, rs1) ^ imm.word()),
        Instr::Ori { rd, rs1, imm } => (rd, read(regs, rs1) | imm.word()),
        Instr::Andi { rd, rs1, imm } => (rd, read(regs, rs1) & imm.word()),
        Instr::Slli { rd, rs1, amount } => (rd, read(regs, rs1) << amount.number()),
        Instr::Srli { rd, rs1, amount } => (rd, read(regs, rs1) >> amount.number()),
        Instr::Srai { rd, rs1, amount } => (rd, signed_shift(read(regs, rs1), amount.number())),
        Instr::Add { rd, rs1, rs2 } => (rd, read(regs, rs1).wrapping_add(read(regs, rs2))),
        Instr::Sub { rd, rs1, rs2 } => (rd, read(regs, rs1).wrapping_sub(read(regs, rs2))),
        Instr::Sll { rd, rs1, rs2 } => (rd, read(regs, rs1) << read(regs, rs2) % 32),
        Instr::Slt { rd, rs1, rs2 } => (rd, signed_less(read(regs, rs1), read(regs, rs2))),
        Instr::Sltu { rd, rs1, rs2 } => (rd, less(read(regs, rs1), read(regs, rs2))),
        Instr::Xor { rd, rs1, rs2 } => (rd, read(regs, rs1) ^ read(regs, rs2)),
        Instr::Srl { rd, rs1, rs2 } => (rd, read(regs, rs1) >> read(regs, rs2) % 32),
        Instr::Sra { rd, rs1, rs2 } => (rd, signed_shift(read(regs, rs1), read(regs, rs2) % 32)),
        Instr::Or { rd, rs1, rs2 } => (rd, read(regs, rs1) | read(regs, rs2)),
        Instr::And { rd, rs1, rs2 } => (rd, read(regs, rs1) & read(regs, rs2)),
        _ => unreachable!(),
    }
}

// The word in a register.
pub(crate) fn read(regs: &Regs, r: Register) -> u32
    ensures { result ≡ register regs.now r }
{
    regs.get(r.number())
}

// Whether a word is below another, both as signed numbers.
pub(crate) fn is_signed_less(a: u32, b: u32) -> bool
    ensures { result ≡ signed_lt a b }
{
    a.wrapping_add(0x8000_0000) < b.wrapping_add(0x8000_0000)
}

// 1 where a word is below another as signed numbers, else 0.
fn signed_less(a: u32, b: u32) -> u32
    ensures { result ≡ one_if (signed_lt a b) }
{
    u32::from(is_signed_less(a, b))
}

// 1 where a word is below another, else 0.
fn less(a: u32, b: u32) -> u32
    ensures { result ≡ one_if (nat_lt a b) }
{
    u32::from(a < b)
}

// A word shifted right, with copies of its sign coming in from the left.
fn signed_shift(a: u32, amount: u32) -> u32
    requires { amount < 32 }
    ensures { result ≡ shifted_right_signed a amount }
{
    if a < 0x8000_0000 {
        a >> amount
    } else {
        !(!a >> amount)
    }
}
