//! Where the entries that a kernel makes lead. The functions do nothing: their contracts are the laws.

ghost use Rattle.std.specs.Prelude.{◌≡◌, ℕ, ◌<◌, ◌^◌, if◌then◌else◌};
ghost use Rattle.ow_base.specs.Words.{bits};
ghost use Rattle.ow_base.specs.Sv32.{WordMap, place_in, by_last, by_first};
ghost use Rattle.ow_base.specs.declared.machine.Access.{Access};
ghost use Rattle.ow_base.specs.declared.machine.Rights.{Rights};
ghost use Rattle.ow_base.specs.declared.machine.PageCause.TheVariants as cause;
ghost use Rattle.sv32_tables.specs.Entries.{granted, leaf_word, pointer_word};

/// A leaf leads each access that its rights give to the frame that it was made for, and refuses the others.
#[tactic(auto, using(crate::proofs::Entries::leaf_read_back))]
pub const fn leaf_is_read_back()
    ensures { (words : WordMap) (access : Access) (address frame : ℕ) (rights : Rights) → frame < 2 ^ 22
        → by_last words access address (Some (leaf_word frame rights))
        ≡ (if granted access rights then place_in words access address frame (words frame (bits address 2 10)) else Err cause.Page) }
{}

/// A pointer leads each access on to the table that it was made for.
#[tactic(auto, using(crate::proofs::Entries::pointer_read_back))]
pub const fn pointer_is_read_back()
    ensures { (words : WordMap) (access : Access) (address frame : ℕ) → frame < 2 ^ 22
        → by_first words access address (Some (pointer_word frame))
        ≡ by_last words access address (words frame (bits address 12 10)) }
{}

/// Where an entry is 0, at either level, nothing is mapped.
#[tactic(auto, unfolding(ow_base::specs::Sv32::is_valid))]
pub const fn nothing_is_mapped()
    ensures last { (words : WordMap) (access : Access) (address : ℕ)
        → by_last words access address (Some 0) ≡ Err cause.Page }
    ensures first { (words : WordMap) (access : Access) (address : ℕ)
        → by_first words access address (Some 0) ≡ Err cause.Page }
{}
