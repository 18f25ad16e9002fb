//! Tests of what is read from a text, and of the words of the reasons. What is refused is in worlds/*.cases, over
//! which the program is run.

use ow_base::Start;
use std::test::Fail;
use world_file::{Why, read_world};

#[test]
fn reads_the_values(rt: HostRuntime) -> Result<(), Fail> {
    let alloc = rt.alloc();
    let text =
        b"world 1\nframes 32\nsectors 4\nquantum 100\nbudget 1000\nprogram a\ncode 00100513 000115b7\ncode 00000073\ndata 000a6948\nprogram b\ncode ffffffff\nstart b 1\nstart a 0\nstart b 0\nend\n";
    let world = read_world(alloc, text)
        .ok()
        .ok_or("the text is of a world")?;
    let shape = world.load.shape;
    assert_eq!(rt; shape.user_frames, 32);
    assert_eq!(rt; shape.sectors, 4);
    assert_eq!(rt; shape.quantum, 100);
    assert_eq!(rt; shape.budget, 1000);
    let programs = world.load.programs.items();
    assert_eq!(rt; programs.len(), 2);
    let first = programs.first().ok_or("there is a program")?;
    assert_eq!(rt; first.name.items(), b"a".as_slice());
    assert_eq!(rt;
        first.code.items(),
        [0x0010_0513, 0x0001_15b7, 0x0000_0073].as_slice()
    );
    assert_eq!(rt; first.values.items(), [0x000a_6948].as_slice());
    let second = programs.get(1).ok_or("there is a second program")?;
    assert_eq!(rt; second.name.items(), b"b".as_slice());
    assert_eq!(rt; second.code.items(), [0xffff_ffff].as_slice());
    assert_eq!(rt; second.values.items().len(), 0);
    let starts = [
        Start { program: 1, tty: 1 },
        Start { program: 0, tty: 0 },
        Start { program: 1, tty: 0 },
    ];
    assert_eq!(rt; world.load.starts.items(), starts.as_slice());
    assert_eq!(rt; world.load.files.items().len(), 0);
    assert_eq!(rt; world.panics.items().len(), 0);
    Ok(())
}

#[test]
fn says_each_reason_in_words(rt: HostRuntime) -> Result<(), Fail> {
    let cases = [
        (Why::FirstLine, "first line"),
        (Why::NotBuilt, "not built"),
        (Why::Word, "word"),
        (Why::TooMany, "too many"),
        (Why::Fields, "fields"),
        (Why::Number, "number"),
        (Why::Name, "name"),
        (Why::Hex, "hex"),
        (Why::Escape, "escape"),
        (Why::Twice, "twice"),
        (Why::NoSuchProgram, "no such program"),
        (Why::Order, "order"),
        (Why::Frames, "frames"),
        (Why::Sectors, "sectors"),
        (Why::End, "end"),
        (Why::TooLarge, "too large"),
    ];
    for (why, text) in cases {
        assert_eq!(rt; why.text(), text.as_bytes());
    }
    Ok(())
}
