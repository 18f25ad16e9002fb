//! What an instruction asks for: a register to set, a jump, a load, a store, a call or a fault.

ghost use Rattle.std.specs.Prelude.{◌≡◌, ◌+◌};
ghost use Rattle.ow_base.specs.Words.{wrapped};
ghost use Rattle.ow_base.specs.UserStep.{Jumps, Branches, Loads, Stores, register, signed_lt};
ghost use Rattle.rv32_isa.specs.Meaning.{act};
ghost use Rattle.rv32_user.specs.Action.{act_value};

use crate::computation::{computed, is_signed_less, read};
use ow_base::{Regs, Width};
use rv32_isa::{BranchOffset, Immediate, Instr, Register};

// What an instruction tells the processor to do, its operands read.
#[derive(Clone, Copy)]
pub(crate) enum Action {
    // The register takes the value.
    Set { rd: Register, value: u32 },
    // The register takes the address behind the instruction, and control goes to the target.
    Jump { rd: Register, target: u32 },
    // Control goes to the target where the branch is taken.
    Branch { taken: bool, target: u32 },
    Load(Load),
    Store(Store),
    Fence,
    Call,
    Break,
}

// The register takes what is loaded, its sign extended where that is asked.
#[derive(Clone, Copy)]
pub(crate) struct Load {
    pub width: Width,
    pub signed: bool,
    pub rd: Register,
    pub address: u32,
}

// The low bytes of the value are stored.
#[derive(Clone, Copy)]
pub(crate) struct Store {
    pub width: Width,
    pub address: u32,
    pub value: u32,
}

// What an instruction tells the processor to do at this pc, with these registers.
pub(crate) fn action_of(instr: Instr, regs: &Regs, pc: u32) -> Action
    ensures { act_value result ≡ act instr regs.now pc }
{
    match instr {
        Instr::Jal { rd, offset } => jumps(rd, pc.wrapping_add(offset.word())),
        Instr::Jalr { rd, rs1, offset } => jumps(rd, sum(regs, rs1, offset) / 2 * 2),
        Instr::Beq { rs1, rs2, offset } => branches(read(regs, rs1) == read(regs, rs2), pc, offset),
        Instr::Bne { rs1, rs2, offset } => branches(read(regs, rs1) != read(regs, rs2), pc, offset),
        Instr::Blt { rs1, rs2, offset } => branches(is_less(regs, rs1, rs2), pc, offset),
        Instr::Bge { rs1, rs2, offset } => branches(!is_less(regs, rs1, rs2), pc, offset),
        Instr::Bltu { rs1, rs2, offset } => branches(read(regs, rs1) < read(regs, rs2), pc, offset),
        Instr::Bgeu { rs1, rs2, offset } => branches(
            read(regs, rs1) >= read(regs, rs2),
            pc,
            offset,
        ),
        Instr::Lb { rd, rs1, offset } => loads(Width::Byte, true, rd, sum(regs, rs1, offset)),
        Instr::Lh { rd, rs1, offset } => loads(Width::Half, true, rd, sum(regs, rs1, offset)),
        Instr::Lw { rd, rs1, offset } => loads(Width::Word, false, rd, sum(regs, rs1, offset)),
        Instr::Lbu { rd, rs1, offset } => loads(Width::Byte, false, rd, sum(regs, rs1, offset)),
        Instr::Lhu { rd, rs1, offset } => loads(Width::Half, false, rd, sum(regs, rs1, offset)),
        Instr::Sb { rs1, rs2, offset } => stores(Width::Byte, regs, rs1, rs2, offset),
        Instr::Sh { rs1, rs2, offset } => stores(Width::Half, regs, rs1, rs2, offset),
        Instr::Sw { rs1, rs2, offset } => stores(Width::Word, regs, rs1, rs2, offset),
        Instr::Fence { .. } => Action::Fence,
        Instr::Ecall => Action::Call,
        Instr::Ebreak => Action::Break,
        _ => {
            let (rd, value) = computed(instr, regs, pc);
            Action::Set { rd, value }
        }
    }
}

fn jumps(rd: Register, target: u32) -> Action
    ensures { act_value result ≡ Jumps rd target }
{
    Action::Jump { rd, target }
}

fn branches(taken: bool, pc: u32, offset: BranchOffset) -> Action
    ensures { act_value result ≡ Branches taken (wrapped (pc + offset)) }
{
    Action::Branch {
        taken,
        target: pc.wrapping_add(offset.word()),
    }
}

fn loads(width: Width, signed: bool, rd: Register, address: u32) -> Action
    ensures { act_value result ≡ Loads width signed rd address }
{
    Action::Load(Load {
        width,
        signed,
        rd,
        address,
    })
}

fn stores(width: Width, regs: &Regs, rs1: Register, rs2: Register, offset: Immediate) -> Action
    ensures { act_value result
        ≡ Stores width (wrapped (register regs.now rs1 + offset)) (register regs.now rs2) }
{
    Action::Store(Store {
        width,
        address: sum(regs, rs1, offset),
        value: read(regs, rs2),
    })
}

// The sum of a register and an offset, which wraps.
fn sum(regs: &Regs, rs1: Register, offset: Immediate) -> u32
    ensures { result ≡ wrapped (register regs.now rs1 + offset) }
{
    read(regs, rs1).wrapping_add(offset.word())
}

// Whether a register is below another, both as signed numbers.
fn is_less(regs: &Regs, rs1: Register, rs2: Register) -> bool
    ensures { result ≡ signed_lt (register regs.now rs1) (register regs.now rs2) }
{
    is_signed_less(read(regs, rs1), read(regs, rs2))
}
