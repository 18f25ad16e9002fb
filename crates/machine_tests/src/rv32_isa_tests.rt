//! Words whose instructions the manual and its assemblers give.

ghost use Rattle.std.specs.Prelude.{◌<◌};

use rv32_isa::{
    BranchOffset, Immediate, Instr, JumpOffset, Register, ShiftAmount, UpperImmediate, decode,
    encode,
};

fn x(number: u32) -> Register
    requires { number < 32 }
{
    Register::new(number).unwrap()
}

#[test]
fn words_of_instructions(rt: HostRuntime) {
    let (rd, rs1, rs2) = (x(1), x(2), x(5));
    let imm = Immediate::new(0xffff_fffc).unwrap();
    let offset = imm;
    let amount = ShiftAmount::new(31).unwrap();
    let table = [
        (0xffc1_0093, Instr::Addi { rd, rs1, imm }),
        (0x0051_00b3, Instr::Add { rd, rs1, rs2 }),
        (0x4051_00b3, Instr::Sub { rd, rs1, rs2 }),
        (0x41f1_5093, Instr::Srai { rd, rs1, amount }),
        (0xffc1_00e7, Instr::Jalr { rd, rs1, offset }),
        (0xffc1_0083, Instr::Lb { rd, rs1, offset }),
        (0xfe51_2e23, Instr::Sw { rs1, rs2, offset }),
        (0x0000_0073, Instr::Ecall),
        (0x0010_0073, Instr::Ebreak),
    ];
    for (word, instr) in table {
        assert_eq!(rt; decode(word), Some(instr), "at {word:x}");
        assert_eq!(rt;
            decode(word).map(|instr| encode(instr)),
            Some(word),
            "at {word:x}"
        );
    }
}

#[test]
fn words_of_wide_immediates(rt: HostRuntime) {
    let (rd, rs1, rs2) = (x(1), x(2), x(5));
    let imm = UpperImmediate::new(0x12345).unwrap();
    assert_eq!(rt; encode(Instr::Lui { rd, imm }), 0x1234_50b7);
    let offset = JumpOffset::new(0xffff_fffc).unwrap();
    assert_eq!(rt; encode(Instr::Jal { rd, offset }), 0xffdf_f0ef);
    let offset = BranchOffset::new(0xffff_fffc).unwrap();
    assert_eq!(rt; encode(Instr::Beq { rs1, rs2, offset }), 0xfe51_0ee3);
}

// FENCE keeps its other bits; words of other extensions and of no meaning are no rows.
#[test]
fn rows_and_others(rt: HostRuntime) {
    for fence in [0x0ff0_000f, 0x0000_000f, 0xffff_8f8f] {
        assert_eq!(rt;
            decode(fence).map(|instr| encode(instr)),
            Some(fence),
            "at {fence:x}"
        );
    }
    let others = [
        0,
        0xffff_ffff,
        0x02a5_8533,
        0x0000_2073,
        0x3020_0073,
        0x0000_100f,
        0x4000_1013,
        0x0200_5013,
        0x0000_3003,
        0x0000_6003,
        0x0000_3023,
        0x0000_2063,
        0x0000_1067,
        0x4000_7033,
        0x0000_0173,
    ];
    for word in others {
        assert!(rt; decode(word).is_none(), "at {word:x}");
    }
}
