//! Which word an instruction has.

ghost use Rattle.std.specs.Prelude.{◌≡◌, ◌<◌, ◌^◌, true};
ghost use Rattle.rv32_isa.specs.Table.{
  r_word,
  i_word,
  s_word,
  b_word,
  u_word,
  j_word,
  word_of,
  is_computation,
};

use crate::fields::{BranchOffset, Immediate, JumpOffset, Register, ShiftAmount, UpperImmediate};
use crate::instr::Instr;

/// The word of an instruction: its row of the table of opcodes (manual, the listings of RV32I).
pub fn encode(instr: Instr) -> u32
    ensures { result ≡ word_of instr }
{
    match instr {
        Instr::Jal { rd, offset } => j_word(rd, offset),
        Instr::Jalr { rd, rs1, offset } => i_word(0x67, 0, rd, rs1, offset),
        Instr::Beq { rs1, rs2, offset } => b_word(0, rs1, rs2, offset),
        Instr::Bne { rs1, rs2, offset } => b_word(1, rs1, rs2, offset),
        Instr::Blt { rs1, rs2, offset } => b_word(4, rs1, rs2, offset),
        Instr::Bge { rs1, rs2, offset } => b_word(5, rs1, rs2, offset),
        Instr::Bltu { rs1, rs2, offset } => b_word(6, rs1, rs2, offset),
        Instr::Bgeu { rs1, rs2, offset } => b_word(7, rs1, rs2, offset),
        Instr::Lb { rd, rs1, offset } => i_word(0x03, 0, rd, rs1, offset),
        Instr::Lh { rd, rs1, offset } => i_word(0x03, 1, rd, rs1, offset),
        Instr::Lw { rd, rs1, offset } => i_word(0x03, 2, rd, rs1, offset),
        Instr::Lbu { rd, rs1, offset } => i_word(0x03, 4, rd, rs1, offset),
        Instr::Lhu { rd, rs1, offset } => i_word(0x03, 5, rd, rs1, offset),
        Instr::Sb { rs1, rs2, offset } => s_word(0, rs1, rs2, offset),
        Instr::Sh { rs1, rs2, offset } => s_word(1, rs1, rs2, offset),
        Instr::Sw { rs1, rs2, offset } => s_word(2, rs1, rs2, offset),
        Instr::Fence { rd, rs1, imm } => i_word(0x0f, 0, rd, rs1, imm),
        Instr::Ecall => 0x73,
        Instr::Ebreak => 0x100073,
        _ => computation_word(instr),
    }
}

// The word of an instruction that computes a register's next value.
fn computation_word(instr: Instr) -> u32
    requires { is_computation instr ≡ true }
    ensures { result ≡ word_of instr }
{
    match instr {
        Instr::Lui { rd, imm } => u_word(0x37, rd, imm),
        Instr::Auipc { rd, imm } => u_word(0x17, rd, imm),
        Instr::Addi { rd, rs1, imm } => i_word(0x13, 0, rd, rs1, imm),
        Instr::Slti { rd, rs1, imm } => i_word(0x13, 2, rd, rs1, imm),
        Instr::Sltiu { rd, rs1, imm } => i_word(0x13, 3, rd, rs1, imm),
        Instr::Xori { rd, rs1, imm } => i_word(0x13, 4, rd, rs1, imm),
        Instr::Ori { rd, rs1, imm } => i_word(0x13, 6, rd, rs1, imm),
        Instr::Andi { rd, rs1, imm } => i_word(0x13, 7, rd, rs1, imm),
        Instr::Slli { rd, rs1, amount } => shift_word(1, 0, rd, rs1, amount),
        Instr::Srli { rd, rs1, amount } => shift_word(5, 0, rd, rs1, amount),
        Instr::Srai { rd, rs1, amount } => shift_word(5, 32, rd, rs1, amount),
        Instr::Add { rd, rs1, rs2 } => r_word(0, 0, rd, rs1, rs2),
        Instr::Sub { rd, rs1, rs2 } => r_word(0, 32, rd, rs1, rs2),
        Instr::Sll { rd, rs1, rs2 } => r_word(1, 0, rd, rs1, rs2),
        Instr::Slt { rd, rs1, rs2 } => r_word(2, 0, rd, rs1, rs2),
        Instr::Sltu { rd, rs1, rs2 } => r_word(3, 0, rd, rs1, rs2),
        Instr::Xor { rd, rs1, rs2 } => r_word(4, 0, rd, rs1, rs2),
        Instr::Srl { rd, rs1, rs2 } => r_word(5, 0, rd, rs1, rs2),
        Instr::Sra { rd, rs1, rs2 } => r_word(5, 32, rd, rs1, rs2),
        Instr::Or { rd, rs1, rs2 } => r_word(6, 0, rd, rs1, rs2),
        Instr::And { rd, rs1, rs2 } => r_word(7, 0, rd, rs1, rs2),
        _ => unreachable!(),
    }
}

// The six formats of a word (manual, sections 2.2 and 2.3).

fn r_word(funct3: u32, funct7: u32, rd: Register, rs1: Register, rs2: Register) -> u32
    requires funct3 { funct3 < 2 ^ 3 }
    requires funct7 { funct7 < 2 ^ 7 }
    ensures { result ≡ r_word 0x33 funct3 funct7 rd rs1 rs2 }
{
    0x33 + (rd.number() << 7)
        + (funct3 << 12)
        + (rs1.number() << 15)
        + (rs2.number() << 20)
        + (funct7 << 25)
}

fn shift_word(funct3: u32, funct7: u32, rd: Register, rs1: Register, amount: ShiftAmount) -> u32
    requires funct3 { funct3 < 2 ^ 3 }
    requires funct7 { funct7 < 2 ^ 7 }
    ensures { result ≡ r_word 0x13 funct3 funct7 rd rs1 amount }
{
    0x13 + (rd.number() << 7)
        + (funct3 << 12)
        + (rs1.number() << 15)
        + (amount.number() << 20)
        + (funct7 << 25)
}

fn i_word(opcode: u32, funct3: u32, rd: Register, rs1: Register, imm: Immediate) -> u32
    requires opcode { opcode < 2 ^ 7 }
    requires funct3 { funct3 < 2 ^ 3 }
    ensures { result ≡ i_word opcode funct3 rd rs1 imm }
{
    opcode
        + (rd.number() << 7)
        + (funct3 << 12)
        + (rs1.number() << 15)
        + (imm.word() % 0x1000 << 20)
}

fn s_word(funct3: u32, rs1: Register, rs2: Register, imm: Immediate) -> u32
    requires { funct3 < 2 ^ 3 }
    ensures { result ≡ s_word 0x23 funct3 rs1 rs2 imm }
{
    let low = imm.word() % 0x20;
    let high = imm.word() / 0x20 % 0x80;
    0x23 + (low << 7) + (funct3 << 12) + (rs1.number() << 15) + (rs2.number() << 20) + (high << 25)
}

fn b_word(funct3: u32, rs1: Register, rs2: Register, imm: BranchOffset) -> u32
    requires { funct3 < 2 ^ 3 }
    ensures { result ≡ b_word 0x63 funct3 rs1 rs2 imm }
{
    let imm = imm.word();
    let low = (imm / 0x800 % 2 << 7) + (imm / 2 % 0x10 << 8);
    let high = (imm / 0x20 % 0x40 << 25) + (imm / 0x1000 % 2 << 31);
    0x63 + low + (funct3 << 12) + (rs1.number() << 15) + (rs2.number() << 20) + high
}

fn u_word(opcode: u32, rd: Register, imm: UpperImmediate) -> u32
    requires { opcode < 2 ^ 7 }
    ensures { result ≡ u_word opcode rd imm }
{
    opcode + (rd.number() << 7) + (imm.number() << 12)
}

fn j_word(rd: Register, imm: JumpOffset) -> u32
    ensures { result ≡ j_word 0x6f rd imm }
{
    let imm = imm.word();
    let low = (imm / 0x1000 % 0x100 << 12) + (imm / 0x800 % 2 << 20);
    let high = (imm / 2 % 0x400 << 21) + (imm / 0x10_0000 % 2 << 31);
    0x6f + (rd.number() << 7) + low + high
}
