//! Which instruction a word is.

ghost use Rattle.std.specs.Prelude.{◌≡◌, ℕ, ◌<◌, ◌≤◌, ◌^◌, List, ◌==◌, if◌then◌else◌, IfSome, IfNone};
ghost use Rattle.ow_base.specs.Words.{bits};
ghost use Rattle.ow_base.specs.UserStep.{
  act_of,
  i_immediate,
  s_immediate,
  b_immediate,
  j_immediate,
};
ghost use Rattle.rv32_isa.specs.declared.instr.Instr.{Instr};
ghost use Rattle.rv32_isa.specs.Table.{word_of, Fits};
ghost use Rattle.rv32_isa.specs.Rows.{
  branch_row,
  load_row,
  store_row,
  shift_row,
  immediate_row,
  register_row,
  system_row,
  row_by,
  row_of,
};
ghost use Rattle.rv32_isa.specs.Meaning.{act_or_illegal};

use crate::fields::{BranchOffset, Immediate, JumpOffset, Register, ShiftAmount, UpperImmediate};
use crate::instr::Instr;

/// The instruction that a word is; None where the word is no row of the table of opcodes (manual, the
/// listings of RV32I), which makes it illegal.
pub fn decode(word: u32) -> Option<Instr>
    ensures found { IfSome result (λ instr. word_of instr ≡ word) }
    ensures fits { IfSome result Fits }
    ensures none { IfNone result ((instr : Instr) → Fits instr → word_of instr ≡ word → ⊥) }
    ensures acts { (regs : List ℕ) (pc : ℕ) → act_of word regs pc ≡ act_or_illegal result regs pc }
    ensures row { result ≡ row_of word }
{
    let fields = Fields {
        word,
        opcode: bits(word, 0, 7),
        funct3: bits(word, 12, 3),
        funct7: bits(word, 25, 7),
        rd: register_at(word, 7),
        rs1: register_at(word, 15),
        rs2: register_at(word, 20),
    };
    fields.row()
}

// A word, and its fields that stand in one place in every format (manual, section 2.2).
#[derive(Clone, Copy)]
struct Fields {
    word: u32,
    opcode: u32,
    funct3: u32,
    funct7: u32,
    rd: Register,
    rs1: Register,
    rs2: Register,
}

impl Fields {
    #[tactic(auto, unfolding(crate::specs::Rows::row_by))]
    fn row(self) -> Option<Instr>
        requires { self.funct3 < 8 }
        ensures { result ≡ row_by self.word self.opcode self.rd self.funct3 self.rs1 self.rs2 self.funct7 }
    {
        let Fields {
            word,
            opcode,
            funct3,
            funct7,
            rd,
            rs1,
            rs2,
        } = self;
        let imm = u_immediate(word);
        let offset = j_immediate(word);
        match opcode {
            0x37 => Some(Instr::Lui { rd, imm }),
            0x17 => Some(Instr::Auipc { rd, imm }),
            0x6f => Some(Instr::Jal { rd, offset }),
            0x67 => jalr(funct3, rd, rs1, i_immediate(word)),
            0x63 => branch(funct3, rs1, rs2, b_immediate(word)),
            0x03 => load(funct3, rd, rs1, i_immediate(word)),
            0x23 => store(funct3, rs1, rs2, s_immediate(word)),
            0x13 => {
                let amount = amount_at(word);
                immediate(funct3, funct7, rd, rs1, i_immediate(word), amount)
            }
            0x33 => between_registers(funct3, funct7, rd, rs1, rs2),
            0x0f => fence(funct3, rd, rs1, i_immediate(word)),
            0x73 => system(word),
            _ => None,
        }
    }
}

// A jump through a register (manual, section 2.5), by funct3.
fn jalr(funct3: u32, rd: Register, rs1: Register, offset: Immediate) -> Option<Instr>
    ensures { result ≡ (if funct3 == 0 then Some (Instr.Jalr rd rs1 offset) else None) }
{
    if funct3 == 0 {
        Some(Instr::Jalr { rd, rs1, offset })
    } else {
        None
    }
}

// FENCE (manual, section 2.7), by funct3.
fn fence(funct3: u32, rd: Register, rs1: Register, imm: Immediate) -> Option<Instr>
    ensures { result ≡ (if funct3 == 0 then Some (Instr.Fence rd rs1 imm) else None) }
{
    if funct3 == 0 {
        Some(Instr::Fence { rd, rs1, imm })
    } else {
        None
    }
}

// A conditional branch (manual, section 2.5), by funct3.
#[tactic(auto, unfolding(crate::specs::Rows::branch_row))]
fn branch(funct3: u32, rs1: Register, rs2: Register, offset: BranchOffset) -> Option<Instr>
    ensures { result ≡ branch_row funct3 rs1 rs2 offset }
{
    let row = match funct3 {
        0 => Instr::Beq { rs1, rs2, offset },
        1 => Instr::Bne { rs1, rs2, offset },
        4 => Instr::Blt { rs1, rs2, offset },
        5 => Instr::Bge { rs1, rs2, offset },
        6 => Instr::Bltu { rs1, rs2, offset },
        7 => Instr::Bgeu { rs1, rs2, offset },
        _ => return None,
    };
    Some(row)
}

// A load (manual, section 2.6), by funct3.
#[tactic(auto, unfolding(crate::specs::Rows::load_row))]
fn load(funct3: u32, rd: Register, rs1: Register, offset: Immediate) -> Option<Instr>
    ensures { result ≡ load_row funct3 rd rs1 offset }
{
    let row = match funct3 {
        0 => Instr::Lb { rd, rs1, offset },
        1 => Instr::Lh { rd, rs1, offset },
        2 => Instr::Lw { rd, rs1, offset },
        4 => Instr::Lbu { rd, rs1, offset },
        5 => Instr::Lhu { rd, rs1, offset },
        _ => return None,
    };
    Some(row)
}

// A store (manual, section 2.6), by funct3.
#[tactic(auto, unfolding(crate::specs::Rows::store_row))]
fn store(funct3: u32, rs1: Register, rs2: Register, offset: Immediate) -> Option<Instr>
    ensures { result ≡ store_row funct3 rs1 rs2 offset }
{
    let row = match funct3 {
        0 => Instr::Sb { rs1, rs2, offset },
        1 => Instr::Sh { rs1, rs2, offset },
        2 => Instr::Sw { rs1, rs2, offset },
        _ => return None,
    };
    Some(row)
}

// A computation with an immediate (manual, section 2.4), by funct3; a shift also by funct7.
#[tactic(auto, unfolding(crate::specs::Rows::immediate_row, crate::specs::Rows::shift_row))]
fn immediate(
    funct3: u32,
    funct7: u32,
    rd: Register,
    rs1: Register,
    imm: Immediate,
    amount: ShiftAmount,
) -> Option<Instr>
    requires { funct3 < 8 }
    ensures { result ≡ immediate_row funct3 funct7 rd rs1 imm amount }
{
    let row = match (funct3, funct7) {
        (0, _) => Instr::Addi { rd, rs1, imm },
        (2, _) => Instr::Slti { rd, rs1, imm },
        (3, _) => Instr::Sltiu { rd, rs1, imm },
        (4, _) => Instr::Xori { rd, rs1, imm },
        (6, _) => Instr::Ori { rd, rs1, imm },
        (7, _) => Instr::Andi { rd, rs1, imm },
        (1, 0) => Instr::Slli { rd, rs1, amount },
        (5, 0) => Instr::Srli { rd, rs1, amount },
        (5, 32) => Instr::Srai { rd, rs1, amount },
        _ => return None,
    };
    Some(row)
}

// A computation between registers (manual, section 2.4), by funct3 and funct7.
#[tactic(auto, unfolding(crate::specs::Rows::register_row))]
fn between_registers(
    funct3: u32,
    funct7: u32,
    rd: Register,
    rs1: Register,
    rs2: Register,
) -> Option<Instr>
    requires { funct3 < 8 }
    ensures { result ≡ register_row funct3 funct7 rd rs1 rs2 }
{
    let row = match (funct3, funct7) {
        (0, 0) => Instr::Add { rd, rs1, rs2 },
        (0, 32) => Instr::Sub { rd, rs1, rs2 },
        (1, 0) => Instr::Sll { rd, rs1, rs2 },
        (2, 0) => Instr::Slt { rd, rs1, rs2 },
        (3, 0) => Instr::Sltu { rd, rs1, rs2 },
        (4, 0) => Instr::Xor { rd, rs1, rs2 },
        (5, 0) => Instr::Srl { rd, rs1, rs2 },
        (5, 32) => Instr::Sra { rd, rs1, rs2 },
        (6, 0) => Instr::Or { rd, rs1, rs2 },
        (7, 0) => Instr::And { rd, rs1, rs2 },
        _ => return None,
    };
    Some(row)
}

// The two words that a program may run of the opcode SYSTEM (manual, section 2.8).
#[tactic(auto, unfolding(crate::specs::Rows::system_row))]
fn system(word: u32) -> Option<Instr>
    ensures { result ≡ system_row word }
{
    match word {
        0x0000_0073 => Some(Instr::Ecall),
        0x0010_0073 => Some(Instr::Ebreak),
        _ => None,
    }
}

// The bits of a word from `low` on, `count` of them.
const fn bits(word: u32, low: u32, count: u32) -> u32
    requires low { low < 32 }
    requires count { count < 32 }
    ensures value { result ≡ bits word low count }
    ensures fits { result < 2 ^ count }
{
    (word >> low) & ((1 << count) - 1)
}

fn register_at(word: u32, low: u32) -> Register
    requires { low < 32 }
    ensures { result ≡ bits word low 5 }
{
    Register::from_field(bits(word, low, 5))
}

fn amount_at(word: u32) -> ShiftAmount
    ensures { result ≡ bits word 20 5 }
{
    ShiftAmount::from_field(bits(word, 20, 5))
}

// The immediates of the formats (manual, section 2.3), their signs extended.

fn i_immediate(word: u32) -> Immediate
    ensures { result ≡ i_immediate word }
{
    Immediate::extended(bits(word, 20, 12))
}

fn s_immediate(word: u32) -> Immediate
    ensures { result ≡ s_immediate word }
{
    Immediate::extended(32 * bits(word, 25, 7) + bits(word, 7, 5))
}

fn b_immediate(word: u32) -> BranchOffset
    ensures { result ≡ b_immediate word }
{
    let high = 4096 * bits(word, 31, 1) + 2048 * bits(word, 7, 1);
    BranchOffset::extended(high + 32 * bits(word, 25, 6) + 2 * bits(word, 8, 4))
}

fn u_immediate(word: u32) -> UpperImmediate
    ensures { result ≡ bits word 12 20 }
{
    UpperImmediate::from_field(bits(word, 12, 20))
}

fn j_immediate(word: u32) -> JumpOffset
    ensures { result ≡ j_immediate word }
{
    let high = 1048576 * bits(word, 31, 1) + 4096 * bits(word, 12, 8);
    JumpOffset::extended(high + 2048 * bits(word, 20, 1) + 2 * bits(word, 21, 10))
}
