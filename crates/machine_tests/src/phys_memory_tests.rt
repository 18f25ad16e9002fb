//! Tests of memory and of its split.

use ow_base::{AreaId, WordSource};
use phys_memory::Memory;
use std::test::Fail;

// The least memory has 257 frames: the boot frame, half A from frame 1 on, and half B from frame 129 on.
#[test]
fn a_split_lends_one_half(rt: HostRuntime) -> Result<(), Fail> {
    let mut memory = Memory::new(rt.alloc(), 0)?;
    assert_eq!(rt; memory.frame_count(), 257);
    let (rest, mut own) = memory.split(AreaId::A);
    assert_eq!(rt; (rest.load(128, 1023), rest.load(129, 0)), (Some(0), None));
    assert!(rt; !own.has_frame(128));
    assert!(rt; own.has_frame(129));
    own.store(129, 0, 7);
    assert_eq!(rt; own.load(129, 0), 7);
    assert_eq!(rt; memory.load(129, 0), Some(7));
    Ok(())
}
