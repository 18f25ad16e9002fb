//! Where in memory a kernel's frames are.
ghost use Rattle.std.specs.Prelude.{◌≡◌, ◌≤◌};
ghost use Rattle.record_layouts.specs.Halves.{half_map};
ghost use Rattle.record_layouts.specs.Reading.{FitsMap};

use crate::layout::{AREA_FRAMES, KERNEL_FRAMES};
use ow_base::AreaId;

/// Where in memory the frames of a kernel begin, and how many frames and sectors there are.
///
/// The area is 64 frames from `area_base` on, the cache 64 from `cache_base` on, and the user frames are `user_frames`,
/// at most 384, from `pool_base` on. The disk has `sectors` data sectors.
#[derive(Clone, Copy, Debug, PartialEq, Eq)]
pub struct MemoryMap {
    pub area_base: u32,
    pub cache_base: u32,
    pub pool_base: u32,
    pub user_frames: u32,
    pub sectors: u32,
}

impl MemoryMap {
    /// Where the frames of the kernel are that has an area, in a memory with at most 384 user frames in each half.
    pub fn of_area(area: AreaId, user_frames: u32, sectors: u32) -> MemoryMap
        requires { user_frames ≤ 384 }
        ensures map { result ≡ half_map area user_frames sectors }
        ensures fits { FitsMap result }
    {
        let area_base = match area {
            AreaId::A => 1,
            AreaId::B => 1 + KERNEL_FRAMES + user_frames,
        };
        MemoryMap {
            area_base,
            cache_base: area_base + AREA_FRAMES,
            pool_base: area_base + KERNEL_FRAMES,
            user_frames,
            sectors,
        }
    }
}
