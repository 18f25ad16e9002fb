//! The 40 instructions of the table.

use crate::fields::{BranchOffset, Immediate, JumpOffset, Register, ShiftAmount, UpperImmediate};

/// An instruction of RV32I 2.1, in the manual's names and order.
///
/// `rd` takes the result, `rs1` and `rs2` are read. FENCE keeps the fields that it ignores, so that each
/// word is the word of its instruction.
#[derive(Clone, Copy, Debug, PartialEq, Eq)]
pub enum Instr {
    Lui {
        rd: Register,
        imm: UpperImmediate,
    },
    Auipc {
        rd: Register,
        imm: UpperImmediate,
    },
    Jal {
        rd: Register,
        offset: JumpOffset,
    },
    Jalr {
        rd: Register,
        rs1: Register,
        offset: Immediate,
    },
    Beq {
        rs1: Register,
        rs2: Register,
        offset: BranchOffset,
    },
    Bne {
        rs1: Register,
        rs2: Register,
        offset: BranchOffset,
    },
    Blt {
        rs1: Register,
        rs2: Register,
        offset: BranchOffset,
    },
    Bge {
        rs1: Register,
        rs2: Register,
        offset: BranchOffset,
    },
    Bltu {
        rs1: Register,
        rs2: Register,
        offset: BranchOffset,
    },
    Bgeu {
        rs1: Register,
        rs2: Register,
        offset: BranchOffset,
    },
    Lb {
        rd: Register,
        rs1: Register,
        offset: Immediate,
    },
    Lh {
        rd: Register,
        rs1: Register,
        offset: Immediate,
    },
    Lw {
        rd: Register,
        rs1: Register,
        offset: Immediate,
    },
    Lbu {
        rd: Register,
        rs1: Register,
        offset: Immediate,
    },
    Lhu {
        rd: Register,
        rs1: Register,
        offset: Immediate,
    },
    Sb {
        rs1: Register,
        rs2: Register,
        offset: Immediate,
    },
    Sh {
        rs1: Register,
        rs2: Register,
        offset: Immediate,
    },
    Sw {
        rs1: Register,
        rs2: Register,
        offset: Immediate,
    },
    Addi {
        rd: Register,
        rs1: Register,
        imm: Immediate,
    },
    Slti {
        rd: Register,
        rs1: Register,
        imm: Immediate,
    },
    Sltiu {
        rd: Register,
        rs1: Register,
        imm: Immediate,
    },
    Xori {
        rd: Register,
        rs1: Register,
        imm: Immediate,
    },
    Ori {
        rd: Register,
        rs1: Register,
        imm: Immediate,
    },
    Andi {
        rd: Register,
        rs1: Register,
        imm: Immediate,
    },
    Slli {
        rd: Register,
        rs1: Register,
        amount: ShiftAmount,
    },
    Srli {
        rd: Register,
        rs1: Register,
        amount: ShiftAmount,
    },
    Srai {
        rd: Register,
        rs1: Register,
        amount: ShiftAmount,
    },
    Add {
        rd: Register,
        rs1: Register,
        rs2: Register,
    },
    Sub {
        rd: Register,
        rs1: Register,
        rs2: Register,
    },
    Sll {
        rd: Register,
        rs1: Register,
        rs2: Register,
    },
    Slt {
        rd: Register,
        rs1: Register,
        rs2: Register,
    },
    Sltu {
        rd: Register,
        rs1: Register,
        rs2: Register,
    },
    Xor {
        rd: Register,
        rs1: Register,
        rs2: Register,
    },
    Srl {
        rd: Register,
        rs1: Register,
        rs2: Register,
    },
    Sra {
        rd: Register,
        rs1: Register,
        rs2: Register,
    },
    Or {
        rd: Register,
        rs1: Register,
        rs2: Register,
    },
    And {
        rd: Register,
        rs1: Register,
        rs2: Register,
    },
    Fence {
        rd: Register,
        rs1: Register,
        imm: Immediate,
    },
    Ecall,
    Ebreak,
}
