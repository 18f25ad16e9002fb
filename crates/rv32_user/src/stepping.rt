//! One step of a program: fetch, decode and do.

ghost use Rattle.std.specs.Prelude.{◌≡◌, ◌+◌, ℕ, List};
ghost use Rattle.ow_base.specs.Words.{wrapped};
ghost use Rattle.ow_base.specs.UserStep.{user_step, acted, fault_at};
ghost use Rattle.rv32_user.specs.Action.{act_value};
ghost use Rattle.rv32_user.specs.Step.{ends, UnlessNext};

use crate::action::{Action, Load, Store, action_of};
use crate::alignment::{extended, is_aligned};
use crate::space::Space;
use ow_base::{Fault, Regs, Width};
use rv32_isa::decode;

/// How a step ends.
#[derive(Clone, Copy, Debug, PartialEq, Eq)]
pub enum StepEnd {
    /// The instruction is done.
    Next,
    /// The instruction is ECALL (manual, section 2.8).
    Call,
    /// The instruction raises this fault.
    Fault(Fault),
}

// The causes of faults that a step raises itself (manual, volume II, the table of causes).
const MISALIGNED_FETCH: u32 = 0;

const ILLEGAL: u32 = 2;

const BREAKPOINT: u32 = 3;

const MISALIGNED_LOAD: u32 = 4;

const MISALIGNED_STORE: u32 = 6;

/// Executes the instruction at `pc`. The end is Next where it is done, and registers, `pc` and space are
/// then those after it. At a Call or a Fault all three are as they were.
///
/// A fault comes for a `pc`, a jump or a taken branch that is no multiple of four (cause 0), a word that
/// is no instruction (2), EBREAK (3), a misaligned load or store (4 and 6), which is found before the
/// space is asked, and where the space raises one.
#[tactic(auto, unfolding(ow_base::specs::UserStep::user_step, ow_base::specs::UserStep::after_fetch, ow_base::specs::UserStep::acted))]
pub fn step<S: Space>(regs: &mut Regs, pc: &mut u32, space: &mut S) -> StepEnd
    ensures exact { ends result regs.new pc.new (S.image space.new)
        ≡ user_step S.space regs.old pc.old (S.image space.old) }
    ensures regs { UnlessNext result (regs.new ≡ regs.old) }
    ensures pc { UnlessNext result (pc.new ≡ pc.old) }
    ensures image { UnlessNext result (S.image space.new ≡ S.image space.old) }
{
    if *pc % 4 != 0 {
        return fault(MISALIGNED_FETCH, *pc);
    }
    let word = match space.fetch(*pc) {
        Ok(word) => word,
        Err(fault) => return StepEnd::Fault(fault),
    };
    match decode(word) {
        Some(instr) => perform(action_of(instr, regs, *pc), regs, pc, space),
        None => fault(ILLEGAL, word),
    }
}

// Does what an instruction tells the processor to do.
#[tactic(auto, unfolding(ow_base::specs::UserStep::acted, ow_base::specs::UserStep::gone_to))]
fn perform<S: Space>(action: Action, regs: &mut Regs, pc: &mut u32, space: &mut S) -> StepEnd
    ensures exact { (word : ℕ) → ends result regs.new pc.new (S.image space.new)
        ≡ acted S.space word regs.old pc.old (S.image space.old) (act_value action) }
    ensures regs { UnlessNext result (regs.new ≡ regs.old) }
    ensures pc { UnlessNext result (pc.new ≡ pc.old) }
    ensures image { UnlessNext result (S.image space.new ≡ S.image space.old) }
{
    match action {
        Action::Set { rd, value } => {
            regs.set(rd.number(), value);
            advance(pc)
        }
        Action::Jump { rd, target } => {
            if !is_aligned(target, Width::Word) {
                return fault(MISALIGNED_FETCH, target);
            }
            regs.set(rd.number(), pc.wrapping_add(4));
            *pc = target;
            StepEnd::Next
        }
        Action::Branch { taken, target } => {
            if !taken {
                return advance(pc);
            }
            if !is_aligned(target, Width::Word) {
                return fault(MISALIGNED_FETCH, target);
            }
            *pc = target;
            StepEnd::Next
        }
        Action::Load(task) => load(regs, pc, space, task),
        Action::Store(task) => store(pc, space, task),
        Action::Fence => advance(pc),
        Action::Call => StepEnd::Call,
        Action::Break => fault(BREAKPOINT, *pc),
    }
}

// Loads into a register. The address is tested before the space is asked.
#[tactic(auto, unfolding(ow_base::specs::UserStep::acted, ow_base::specs::UserStep::after_load))]
fn load<S: Space>(regs: &mut Regs, pc: &mut u32, space: &mut S, task: Load) -> StepEnd
    ensures exact { (word : ℕ) → ends result regs.new pc.new (S.image space.new)
        ≡ acted S.space word regs.old pc.old (S.image space.old) (act_value (Action.Load task)) }
    ensures regs { UnlessNext result (regs.new ≡ regs.old) }
    ensures pc { UnlessNext result (pc.new ≡ pc.old) }
    ensures image { S.image space.new ≡ S.image space.old }
{
    if !is_aligned(task.address, task.width) {
        return fault(MISALIGNED_LOAD, task.address);
    }
    match space.load(task.address, task.width) {
        Ok(value) => {
            let value = extended(task.width, task.signed, value);
            regs.set(task.rd.number(), value);
            advance(pc)
        }
        Err(fault) => StepEnd::Fault(fault),
    }
}

// Stores a value. The address is tested before the space is asked.
#[tactic(auto, unfolding(ow_base::specs::UserStep::acted, ow_base::specs::UserStep::after_store))]
fn store<S: Space>(pc: &mut u32, space: &mut S, task: Store) -> StepEnd
    ensures exact { (word : ℕ) (regs : List ℕ) → ends result regs pc.new (S.image space.new)
        ≡ acted S.space word regs pc.old (S.image space.old) (act_value (Action.Store task)) }
    ensures pc { UnlessNext result (pc.new ≡ pc.old) }
    ensures image { UnlessNext result (S.image space.new ≡ S.image space.old) }
{
    if !is_aligned(task.address, task.width) {
        return fault(MISALIGNED_STORE, task.address);
    }
    match space.store(task.address, task.width, task.value) {
        Ok(()) => advance(pc),
        Err(fault) => StepEnd::Fault(fault),
    }
}

// The instruction is done, and control goes on behind it.
fn advance(pc: &mut u32) -> StepEnd
    ensures end { result ≡ StepEnd.Next }
    ensures pc { pc.new ≡ wrapped (pc.old + 4) }
{
    *pc = pc.wrapping_add(4);
    StepEnd::Next
}

fn fault(cause: u32, value: u32) -> StepEnd
    ensures { result ≡ StepEnd.Fault (fault_at cause value) }
{
    StepEnd::Fault(Fault { cause, value })
}
