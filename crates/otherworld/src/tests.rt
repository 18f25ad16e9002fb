//! Tests of the whole program over sources and sinks in memory: of those that fail, and of words that are no
//! command. Whole runs are in worlds/, over which the program is run.

use super::*;
use ow_base::{MemSink, MemSource};
use std::alloc::{AllocError, Global};
use std::test::Fail;

const HI: &str =
    "world 1\nframes 32\nsectors 4\nquantum 100\nbudget 1000\nprogram a\ncode 00100513 000115b7 00300613 00200893 00000073 00000513 00100893 00000073\ndata 000a6948\nstart a 0\nend\n";

const HI_REPORT: &str =
    "otherworld 1\nending done\nsteps 8\ntraps 3\nexit 1 code 0\ntty 0 3\nout Hi\\n\nscreen 0 1 0\nrow 0 Hi\ntty 1 0\nscreen 1 0 0\nend\n";

/// The world hi with a panic at the first store of its write, which is aborted.
const HI_PANIC: &str =
    "world 1\nframes 32\nsectors 4\nquantum 100\nbudget 1000\nprogram a\ncode 00100513 000115b7 00300613 00200893 00000073 00000513 00100893 00000073\ndata 000a6948\nstart a 0\npanic 1 0\nend\n";

const HI_PANIC_REPORT: &str =
    "otherworld 1\nending done\nsteps 8\ntraps 3\npanic 1 0 store pid 1\naborted 1\nexit 1 code 0\ntty 0 0\nscreen 0 0 0\ntty 1 0\nscreen 1 0 0\nend\n";

const READ_FAULT: &str = "read fault\n";

const USAGE: &str = "usage: otherworld run | run --evidence | asm | gen N\n";

// What the program answers to these words, with ample memory and room.
fn answer_to(
    alloc: Global,
    text: &str,
    source: &mut MemSource,
    sink: &mut MemSink,
) -> Result<Status, AllocError> {
    let mut words = Vec::new(alloc);
    for word in text.split(' ') {
        if !word.is_empty() {
            words.push(String::from_str(alloc, word)?)?;
        }
    }
    let mut plant = Plant::new(alloc);
    Ok(otherworld(alloc, words.as_slice(), source, sink, &mut plant))
}

#[test]
fn streams_may_fail_at_any_call(rt: HostRuntime) -> Result<(), Fail> {
    let alloc = rt.alloc();
    // at one byte a call, the input's end takes one read more
    let last_read = u32::try_from(HI.len()).unwrap_or(0).saturating_add(1);
    let last_write = u32::try_from(HI_REPORT.len()).unwrap_or(0);
    let last_panic_write = u32::try_from(HI_PANIC_REPORT.len()).unwrap_or(0);
    // the words, the input, how many bytes a read or a write may take, 0 being any, the read and the write that
    // fail, 0 being none, the status, and the text of which at least a front is written
    let rows = [
        ("run", HI, 0usize, 0u32, 0u32, Status::Done, HI_REPORT),
        ("run", HI, 1, 0, 0, Status::Done, HI_REPORT),
        ("run", HI, 0, 1, 0, Status::ReadFault, READ_FAULT),
        ("run", HI, 0, 2, 0, Status::ReadFault, READ_FAULT),
        ("run", HI, 1, 1, 0, Status::ReadFault, READ_FAULT),
        ("run", HI, 1, 100, 0, Status::ReadFault, READ_FAULT),
        ("run", HI, 1, last_read, 0, Status::ReadFault, READ_FAULT),
        ("run", HI, 0, 0, 1, Status::WriteFault, HI_REPORT),
        ("run", HI, 0, 0, 2, Status::WriteFault, HI_REPORT),
        ("run", HI, 0, 0, 10, Status::WriteFault, HI_REPORT),
        ("run", HI, 1, 0, 1, Status::WriteFault, HI_REPORT),
        ("run", HI, 1, 0, 100, Status::WriteFault, HI_REPORT),
        ("run", HI, 1, 0, last_write, Status::WriteFault, HI_REPORT),
        (
            "run",
            HI_PANIC,
            1,
            0,
            last_panic_write,
            Status::WriteFault,
            HI_PANIC_REPORT,
        ),
        ("run", HI, 0, 1, 1, Status::WriteFault, READ_FAULT),
        ("", HI, 0, 1, 0, Status::Usage, USAGE),
        ("fly", HI, 0, 1, 0, Status::Usage, USAGE),
        ("run x", HI, 0, 1, 0, Status::Usage, USAGE),
        ("fly", HI, 0, 0, 1, Status::WriteFault, USAGE),
    ];
    for (words, world, pace, read, write, status, text) in rows {
        let input = Vec::from_slice(alloc, world.as_bytes())?;
        let mut source = MemSource::new(input, vec![in alloc; read]?).with_pace(pace);
        let mut sink = MemSink::new(vec![in alloc; 0; 1000]?, vec![in alloc; write]?).with_pace(
            pace,
        );
        let answer = answer_to(alloc, words, &mut source, &mut sink)?;
        assert_eq!(rt; answer, status, "{words} {pace} {read} {write}");
        let written = sink.written();
        assert!(rt; text.as_bytes().starts_with(written));
        if status == Status::WriteFault {
            assert!(rt; written.len() < text.len());
            assert_eq!(rt; written.is_empty(), write == 1);
        } else {
            assert_eq!(rt; written.len(), text.len());
        }
        if pace == 1 && (write == last_write || write == last_panic_write) {
            assert_eq!(rt; written.len() + 1, text.len());
        }
        if status == Status::Done {
            assert!(rt; source.left().is_empty());
        }
        if status == Status::Usage {
            assert_eq!(rt; source.left(), world.as_bytes());
        }
    }
    Ok(())
}

#[test]
fn a_text_may_be_too_long(rt: HostRuntime) -> Result<(), Fail> {
    let alloc = rt.alloc();
    let input = vec![in alloc; b'a'; 1_048_577]?;
    let mut source = MemSource::new(input, Vec::new(alloc));
    let mut sink = MemSink::new(vec![in alloc; 0; 100]?, Vec::new(alloc));
    let answer = answer_to(alloc, "run", &mut source, &mut sink)?;
    let expected = Status::BadWorld {
        line: 0,
        why: Why::TooLarge,
    };
    assert_eq!(rt; answer, expected);
    assert_eq!(rt; sink.written(), "bad world line 0: too large\n".as_bytes());
    Ok(())
}
