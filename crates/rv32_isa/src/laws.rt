//! What holds of the table of opcodes as a whole. The functions do nothing: their contracts are the laws.

ghost use Rattle.std.specs.Prelude.{◌≡◌, ℕ, ◌<◌, ◌^◌, List};
ghost use Rattle.ow_base.specs.UserStep.{act_of, Illegal};
ghost use Rattle.rv32_isa.specs.declared.instr.Instr.{Instr};
ghost use Rattle.rv32_isa.specs.Table.{word_of, Fits};
ghost use Rattle.rv32_isa.specs.Rows.{row_of};
ghost use Rattle.rv32_isa.specs.Meaning.{act};

/// The word of an instruction tells the processor to do what the instruction does.
pub const fn rows_agree()
    ensures { (instr : Instr) → Fits instr → (regs : List ℕ) (pc : ℕ)
        → act_of (word_of instr) regs pc ≡ act instr regs pc }
{}

/// The word of an instruction is read as that instruction. So `decode(encode(instr))` is `Some(instr)`, and
/// no two instructions have one word.
pub const fn rows_read_back()
    ensures { (instr : Instr) → Fits instr → row_of (word_of instr) ≡ Some instr }
{}

/// A word that no instruction has is illegal.
pub const fn others_are_illegal()
    ensures { (word : ℕ) → word < 2 ^ 32 → ((instr : Instr) → Fits instr → word_of instr ≡ word → ⊥)
        → (regs : List ℕ) (pc : ℕ) → act_of word regs pc ≡ Illegal }
{}
