//! What is left of an image by a panic. The functions do nothing: their contracts are the laws.
ghost use Rattle.std.specs.Prelude.{◌≡◌, ℕ, Some, true};
ghost use Rattle.ow_base.specs.Images.{Image};
ghost use Rattle.record_layouts.specs.declared.proc.ProcRec.{ProcRec};
ghost use Rattle.record_layouts.specs.Decode.{decodes, pid_in, process_of};
ghost use Rattle.record_layouts.specs.Images.{AreAlike, gate_of_image, records_of_image};
ghost use Rattle.record_layouts.specs.Left.{HandedOver, call_found, left_rec};
ghost use Rattle.record_layouts.specs.LeftImages.{unix_left, wounds_of};
ghost use Rattle.record_layouts.specs.SoundImages.{IsSoundAtPanic};
ghost use Rattle.record_layouts.specs.Unix.Abort.{call_at};
ghost use Rattle.record_layouts.specs.Unix.Wounds.{no_wounds};

/// Where no word of a sound image is hurt, it has no wounds.
pub const fn whole_images_have_no_wounds()
    ensures { (i : Image) (h : HandedOver) (arrived : ℕ → ℕ) (most trap steps traps : ℕ) → IsSoundAtPanic i most trap
        → wounds_of i i arrived ≡ no_wounds (unix_left i h steps traps) }
{}

/// A process that its records tell, with the registers that the panic left, is that of the Unix, and the call that the panic
/// found it in is the one in which the Unix has it.
pub const fn left_processes_are_of_the_unix()
    ensures process { (i : Image) (h : HandedOver) (steps traps slot pid : ℕ) (process : ProcRec)
        → pid_in (records_of_image i) slot ≡ Some pid → (records_of_image i).procs slot ≡ Some process
        → decodes (records_of_image i) slot pid process ≡ true
        → (unix_left i h steps traps).processes pid ≡ Some (process_of (records_of_image i) i.words slot (left_rec (Some h) (records_of_image i).head process)) }
    ensures call { (i : Image) (h : HandedOver) (steps traps slot pid : ℕ) (process : ProcRec)
        → pid_in (records_of_image i) slot ≡ Some pid → (records_of_image i).procs slot ≡ Some process
        → decodes (records_of_image i) slot pid process ≡ true
        → call_at (unix_left i h steps traps) pid (process_of (records_of_image i) i.words slot (left_rec (Some h) (records_of_image i).head process))
        ≡ call_found (Some h) (records_of_image i).head process }
{}

/// Images that are alike say the same of a kernel: its records, its gate, the Unix that a panic left, and that all of it is
/// sound. So it is of no account that the words which a panic hands over stand in the first frame.
pub const fn alike_images_say_the_same()
    ensures records { (one other : Image) → AreAlike one other → records_of_image one ≡ records_of_image other }
    ensures gate { (one other : Image) → AreAlike one other → gate_of_image one ≡ gate_of_image other }
    ensures left { (one other : Image) → AreAlike one other → (h : HandedOver) (steps traps : ℕ)
        → unix_left one h steps traps ≡ unix_left other h steps traps }
    ensures sound { (one other : Image) → AreAlike one other → (steps trap : ℕ) → IsSoundAtPanic one steps trap → IsSoundAtPanic other steps trap }
{}
