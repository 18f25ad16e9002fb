//! Where the pages of a load lie, and what a kernel begins with that boots it.
ghost use Rattle.std.specs.Prelude.{◌≡◌, ◌+◌, ◌^◌, ◌<◌, ◌≤◌, length, slice_index, Some, IfSome};
ghost use Rattle.ow_base.specs.World.{started_page_count};
ghost use Rattle.kernel_traps.specs.Boot.{IsBootable, IsLoadable, program_in};
ghost use Rattle.kernel_traps.specs.BootLayout.{holder_of, low_pages, number_in, page_in, word_in};
ghost use Rattle.kernel_traps.specs.Boot.{pages_before};

use super::records::{boot_record, pages_for, program_at};
use kernel_builder::{Blueprint, Holder, Placed};
use ow_base::{FRAME_WORDS, Load, Program, Rights};
use record_layouts::{AnyRec, CODE_PAGE, RecordId, STACK_PAGE, STACK_PAGES};

// The pages of code and data.
fn count_low(program: &Program) -> u32
    requires { IsLoadable program.now }
    ensures is { result ≡ low_pages program.now }
    ensures few { result ≤ 128 }
{
    pages_for(program.code.items()) + pages_for(program.values.items())
}

// The number of a page among those of its program.
#[tactic(auto, unfolding(crate::specs::BootLayout::number_in))]
fn number_of(program: &Program, page: u32) -> Option<u32>
    requires { IsLoadable program.now }
    ensures is { result ≡ number_in program.now page }
    ensures few { IfSome result (λ number. number < started_page_count program.now) }
{
    let low = count_low(program);
    if page >= CODE_PAGE && page < CODE_PAGE + low {
        Some(page - CODE_PAGE)
    } else if page >= STACK_PAGE && page < STACK_PAGE + STACK_PAGES {
        Some(low + (page - STACK_PAGE))
    } else {
        None
    }
}

// The page of a number.
#[tactic(auto, unfolding(crate::specs::BootLayout::page_in))]
fn page_of(program: &Program, number: u32) -> u32
    requires program { IsLoadable program.now }
    requires number { number < started_page_count program.now }
    ensures is { result ≡ page_in program.now number }
    ensures few { result < 2 ^ 19 }
{
    let low = count_low(program);
    if number < low {
        CODE_PAGE + number
    } else {
        STACK_PAGE + (number - low)
    }
}

// A word of these, 0 behind the last.
fn word_or_zero(words: &[u32], number: u32) -> u32
    ensures { result ≡ slice_index words.now number }
{
    match words.get(number as usize) {
        Some(word) => *word,
        None => 0,
    }
}

// A word of the page of a number.
#[tactic(auto, unfolding(crate::specs::BootLayout::word_in))]
fn word_of(program: &Program, number: u32, word: u32) -> u32
    requires program { IsLoadable program.now }
    requires number { number < started_page_count program.now }
    requires word { word < 1024 }
    ensures { result ≡ word_in program.now number word }
{
    let code = pages_for(program.code.items());
    if number < code {
        word_or_zero(program.code.items(), FRAME_WORDS * number + word)
    } else if number < count_low(program) {
        word_or_zero(program.values.items(), FRAME_WORDS * (number - code) + word)
    } else {
        0
    }
}

// The program of a start.
fn started(load: &Load, slot: u32) -> &Program
    requires load { IsBootable load.now }
    requires slot { slot < length load.now.starts }
    ensures is { program_in load.now slot ≡ Some result.now }
    ensures loadable { IsLoadable result.now }
{
    let Some(program) = program_at(load, slot) else {
        unreachable!()
    };
    program
}

// The pages of a start.
fn count_pages(load: &Load, slot: u32) -> u32
    requires load { IsBootable load.now }
    requires slot { slot < length load.now.starts }
    ensures { pages_before load.now slot + result ≡ pages_before load.now (slot + 1) }
{
    count_low(started(load, slot)) + STACK_PAGES
}

// The frame of the first page of a start.
fn first_frame(load: &Load, slot: u32) -> u32
    requires load { IsBootable load.now }
    requires slot { slot ≤ length load.now.starts }
    ensures { result ≡ pages_before load.now slot }
{
    let mut first = 0;
    for before in 0..slot {
        first += count_pages(load, before);
    }
    first
}

// What a frame holds.
fn find_holder(load: &Load, frame: u32) -> Option<Holder>
    requires { IsBootable load.now }
    ensures is { result ≡ holder_of load.now frame }
    ensures fits { IfSome result (λ holder. (holder.slot < 16) × (holder.page < 2 ^ 19)) }
{
    let mut first = 0;
    for slot in 0..load.starts.items().len() as u32 {
        let next = first + count_pages(load, slot);
        if frame < next {
            let page = page_of(started(load, slot), frame - first);
            return Some(Holder { slot, page });
        }
        first = next;
    }
    None
}

/// A load as what a new kernel begins with.
#[derive(Clone, Copy)]
pub(crate) struct Booted<'l> {
    pub(crate) load: &'l Load,
}

impl Blueprint for Booted<'_> {
    ghost use Rattle.kernel_traps.specs.Boot.{IsBootable};
    ghost use Rattle.kernel_traps.specs.BootLayout.{booted_plan};

    ghost plan = { λ b. booted_plan b.load.now };

    ghost frames = { λ b. b.load.now.shape.user_frames };

    ghost stands = { λ b. IsBootable b.load.now };

    fn record(&self, id: RecordId) -> AnyRec {
        boot_record(self.load, id)
    }

    fn is_live(&self, slot: u32) -> bool {
        (slot as usize) < self.load.starts.items().len()
    }

    fn page(&self, slot: u32, page: u32) -> Option<Placed> {
        let program = program_at(self.load, slot)?;
        let number = number_of(program, page)?;
        let rights = if number < pages_for(program.code.items()) {
            Rights::Code
        } else {
            Rights::Values
        };
        Some(Placed {
            frame: first_frame(self.load, slot) + number,
            rights,
        })
    }

    fn holder(&self, frame: u32) -> Option<Holder> {
        find_holder(self.load, frame)
    }

    fn page_word(&self, _frame: u32, holder: Holder, word: u32) -> u32 {
        let Some(program) = program_at(self.load, holder.slot) else {
            return 0;
        };
        match number_of(program, holder.page) {
            Some(number) => word_of(program, number, word),
            None => 0,
        }
    }
}
