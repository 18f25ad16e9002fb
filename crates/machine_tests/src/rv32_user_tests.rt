//! One step at a time over a space of 64 bytes. The words and values are worked out from the manual.

ghost use Rattle.std.specs.Prelude.{◌≡◌, ◌<◌, ◌+◌, ◌^◌, slice_index};
ghost use Rattle.ow_base.specs.UserStep.{user_step};
ghost use Rattle.machine_tests.specs.SmallSpace.{number_at, small_space};
ghost use Rattle.rv32_user.specs.Step.{ends};

use ow_base::{Fault, Regs, Width};
use rv32_user::{Space, StepEnd, step};

// Code in bytes 0 to 31, values in bytes 32 to 63, and nothing behind them.
#[derive(Drop)]
struct Memory {
    bytes: [u8; 64],
}

impl Memory {
    fn byte(&self, at: usize) -> u32
        requires { at < 64 }
        ensures value { result ≡ slice_index self.now.bytes at }
        ensures fits { result < 256 }
    {
        u32::from(self.bytes[at])
    }

    fn half(&self, at: usize) -> u32
        requires { at + 1 < 64 }
        ensures value { result ≡ number_at self.now.bytes at Width.Half }
        ensures fits { result < 2 ^ 16 }
    {
        self.byte(at) + 256 * self.byte(at + 1)
    }

    fn word(&self, at: usize) -> u32
        requires { at + 3 < 64 }
        ensures { result ≡ number_at self.now.bytes at Width.Word }
    {
        self.half(at) + 65536 * self.half(at + 2)
    }
}

impl Space for Memory {
    ghost use Rattle.std.specs.Prelude.{List, ℕ};
    ghost use Rattle.machine_tests.specs.SmallSpace.{small_space};

    ghost Image = { List ℕ };

    ghost image = { λ m. m.bytes };

    ghost space = { small_space };

    fn fetch(&mut self, va: u32) -> Result<u32, Fault> {
        if va < 32 {
            Ok(self.word(va as usize))
        } else {
            Err(Fault {
                cause: 12,
                value: va,
            })
        }
    }

    fn load(&mut self, va: u32, width: Width) -> Result<u32, Fault> {
        if va >= 64 {
            return Err(Fault {
                cause: 13,
                value: va,
            });
        }
        let at = va as usize;
        match width {
            Width::Byte => Ok(self.byte(at)),
            Width::Half => Ok(self.half(at)),
            Width::Word => Ok(self.word(at)),
        }
    }

    fn store(&mut self, va: u32, width: Width, value: u32) -> Result<(), Fault> {
        if va < 32 || va >= 64 {
            return Err(Fault {
                cause: 15,
                value: va,
            });
        }
        let at = va as usize;
        match width {
            Width::Byte => self.bytes[at] = (value % 256) as u8,
            Width::Half => {
                self.bytes[at] = (value % 256) as u8;
                self.bytes[at + 1] = (value / 256 % 256) as u8;
            }
            Width::Word => {
                self.bytes[at] = (value % 256) as u8;
                self.bytes[at + 1] = (value / 256 % 256) as u8;
                self.bytes[at + 2] = (value / 65536 % 256) as u8;
                self.bytes[at + 3] = (value / 16777216) as u8;
            }
        }
        Ok(())
    }
}

// A processor and its memory.
#[derive(Drop)]
struct Machine {
    regs: Regs,
    pc: u32,
    memory: Memory,
}

impl Machine {
    fn step(&mut self) -> StepEnd
        ensures exact { ends result self.new.regs self.new.pc self.new.memory.bytes
            ≡ user_step small_space self.old.regs self.old.pc self.old.memory.bytes }
    {
        step(&mut self.regs, &mut self.pc, &mut self.memory)
    }
}

// How the instruction at address 8 ends, with these values in x1 and x2, and what is left after it.
fn run(word: u32, x1: u32, x2: u32) -> (StepEnd, Machine) {
    let mut memory = Memory { bytes: [0; 64] };
    let [a, b, c, d] = word.to_le_bytes();
    memory.bytes[8] = a;
    memory.bytes[9] = b;
    memory.bytes[10] = c;
    memory.bytes[11] = d;
    memory.bytes[32] = 0x80;
    memory.bytes[33] = 0xff;
    memory.bytes[34] = 0x7f;
    memory.bytes[35] = 0x01;
    let mut regs = Regs::new();
    regs.set(1, x1);
    regs.set(2, x2);
    let mut machine = Machine {
        regs,
        pc: 8,
        memory,
    };
    let end = machine.step();
    (end, machine)
}

// The value of x3 after a word that sets it, with these values in x1 and x2.
#[test]
fn values(rt: HostRuntime) {
    let table = [
        ("add wraps", 0x0020_81b3, 0xffff_ffff, 2, 1),
        ("addi -1", 0xfff0_8193, 0, 0, 0xffff_ffff),
        ("sub wraps", 0x4020_81b3, 0, 1, 0xffff_ffff),
        ("sll by 33 is by 1", 0x0020_91b3, 1, 33, 2),
        ("srl by 63 is by 31", 0x0020_d1b3, 0x8000_0000, 63, 1),
        (
            "sra by 33 is by 1",
            0x4020_d1b3,
            0x8000_0000,
            33,
            0xc000_0000,
        ),
        ("srai 31", 0x41f0_d193, 0x8000_0000, 0, 0xffff_ffff),
        ("slli 31", 0x01f0_9193, 3, 0, 0x8000_0000),
        ("slt is signed", 0x0020_a1b3, 0xffff_ffff, 0, 1),
        ("sltu is not", 0x0020_b1b3, 0xffff_ffff, 0, 0),
        ("slti -1", 0xfff0_a193, 0xffff_fffe, 0, 1),
        ("sltiu -1 is the greatest word", 0xfff0_b193, 5, 0, 1),
        ("xori -1", 0xfff0_c193, 0x0f0f_0f0f, 0, 0xf0f0_f0f0),
        ("lui", 0xffff_f1b7, 0, 0, 0xffff_f000),
        ("auipc", 0x0000_1197, 0, 0, 0x1008),
        ("lb", 0x0000_8183, 32, 0, 0xffff_ff80),
        ("lbu", 0x0000_c183, 32, 0, 0x80),
        ("lh", 0x0000_9183, 32, 0, 0xffff_ff80),
        ("lhu", 0x0000_d183, 32, 0, 0xff80),
        ("lw", 0x0000_a183, 32, 0, 0x017f_ff80),
        ("lw -4", 0xffc0_a183, 36, 0, 0x017f_ff80),
    ];
    for (name, word, x1, x2, want) in table {
        let (end, machine) = run(word, x1, x2);
        assert_eq!(rt; end, StepEnd::Next, "{name}");
        assert_eq!(rt; machine.regs.get(3), want, "{name}");
        assert_eq!(rt; machine.pc, 12, "{name}");
    }
}

// Where control goes, and what x3 takes.
#[test]
fn targets(rt: HostRuntime) {
    let table = [
        ("jal +8", 0x0080_01ef, 0, 0, 16, 12),
        ("jal -8", 0xff9f_f1ef, 0, 0, 0, 12),
        (
            "jalr 1(x1) clears the lowest bit",
            0x0010_81e7,
            0x20,
            0,
            0x20,
            12,
        ),
        ("beq taken", 0xfe20_8ce3, 7, 7, 0, 0),
        ("beq +6 not taken", 0x0020_8363, 7, 8, 12, 0),
        ("bne not taken", 0x0020_9463, 7, 7, 12, 0),
        ("blt is signed", 0x0020_c463, 0xffff_ffff, 0, 16, 0),
        ("bge is signed", 0x0020_d463, 0xffff_ffff, 0, 12, 0),
        ("bltu is not", 0x0020_e463, 0xffff_ffff, 0, 12, 0),
        ("bgeu is not", 0x0020_f463, 0xffff_ffff, 0, 16, 0),
        ("fence", 0x0ff0_000f, 0, 0, 12, 0),
    ];
    for (name, word, x1, x2, pc, x3) in table {
        let (end, machine) = run(word, x1, x2);
        assert_eq!(rt; end, StepEnd::Next, "{name}");
        assert_eq!(rt; machine.pc, pc, "{name}");
        assert_eq!(rt; machine.regs.get(3), x3, "{name}");
    }
    // The target is formed from x1 before x1 takes the address behind the instruction.
    let (_, machine) = run(0x0000_80e7, 0x20, 0);
    assert_eq!(rt; (machine.pc, machine.regs.get(1)), (0x20, 12));
    // x0 takes nothing.
    let (end, machine) = run(0x0050_8013, 1, 0);
    assert_eq!(rt; (end, machine.regs.get(0)), (StepEnd::Next, 0));
}

// Words that end in a fault: its cause and its value.
#[test]
fn faults(rt: HostRuntime) {
    let table = [
        ("jal to 10", 0x0020_01ef, 0, 0, 10),
        ("jalr to 0x22", 0x0000_81e7, 0x22, 0, 0x22),
        ("beq +6 taken", 0x0020_8363, 7, 0, 14),
        ("all ones", 0xffff_ffff, 0, 2, 0xffff_ffff),
        ("no ones", 0, 0, 2, 0),
        ("ebreak", 0x0010_0073, 0, 3, 8),
        ("lw misaligned", 0x0000_a183, 33, 4, 33),
        (
            "lw misaligned where nothing is",
            0x0000_a183,
            0x1002,
            4,
            0x1002,
        ),
        ("lh misaligned", 0x0000_9183, 33, 4, 33),
        ("lw where nothing is", 0x0000_a183, 0x1000, 13, 0x1000),
        ("sw misaligned in code", 0x0020_a023, 2, 6, 2),
        ("sh misaligned", 0x0020_9023, 33, 6, 33),
        ("sw in code", 0x0020_a023, 4, 15, 4),
    ];
    for (name, word, x1, cause, value) in table {
        let (end, machine) = run(word, x1, 7);
        assert_eq!(rt; end, StepEnd::Fault(Fault { cause, value }), "{name}");
        assert_eq!(rt;
            (machine.pc, machine.regs.get(1), machine.regs.get(3)),
            (8, x1, 0),
            "{name}"
        );
    }
    assert_eq!(rt; run(0x0000_0073, 0, 0).0, StepEnd::Call);
}

// The low bytes of x2 that each store writes.
#[test]
fn stores(rt: HostRuntime) {
    let table = [
        (0x0020_8023, 0x017f_ff44),
        (0x0020_9023, 0x017f_3344),
        (0x0020_a023, 0x1122_3344),
    ];
    for (word, want) in table {
        let (end, machine) = run(word, 32, 0x1122_3344);
        assert_eq!(rt; (end, machine.memory.word(32)), (StepEnd::Next, want));
    }
}

// A pc that is no multiple of four faults before the fetch, and one outside the code at it.
#[test]
fn fetches(rt: HostRuntime) {
    for (at, cause) in [(2, 0), (66, 0), (64, 12), (32, 12)] {
        let mut memory = Memory { bytes: [0; 64] };
        let mut regs = Regs::new();
        let mut pc = at;
        let end = step(&mut regs, &mut pc, &mut memory);
        assert_eq!(rt; end, StepEnd::Fault(Fault { cause, value: at }));
    }
}
