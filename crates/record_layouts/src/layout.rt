//! The numbers of the layout, each under one name: how many there are of a kind, where in an area stands what is no record,
//! and which pages a process has.

use ow_base::FRAME_WORDS;

/// The frames of an area.
pub const AREA_FRAMES: u32 = 64;

/// The frames of a kernel that user frames follow: those of its area and of its cache.
pub const KERNEL_FRAMES: u32 = 128;

/// The slots of processes.
pub const SLOTS: u32 = 16;

/// The number behind the last pid. The first one is 1.
pub const PIDS_END: u32 = 257;

/// The entries of the cache.
pub const CACHE_ENTRIES: u32 = 64;

/// The rows of a terminal.
pub const ROWS: u32 = 24;

/// The first word of an area that names the owner of a user frame.
pub const OWNERS: u32 = 10 * FRAME_WORDS;

/// The first word of an area that names the owner of an entry of the cache.
pub const CACHE_OWNERS: u32 = OWNERS + 960;

/// The first frame of an area that is a page table: the root of slot 0.
pub const FIRST_TABLE: u32 = 16;

/// The tables of a slot: its root, and behind it the low one and the high one.
pub const TABLES_OF_SLOT: u32 = 3;

/// The first page of code.
pub const CODE_PAGE: u32 = 16;

/// The first page of stack.
pub const STACK_PAGE: u32 = 0x7_fffc;

/// The pages of stack.
pub const STACK_PAGES: u32 = 4;
