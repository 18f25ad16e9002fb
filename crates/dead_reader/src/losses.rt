//! What a process lost, by its descriptors and its signals.
ghost use Rattle.std.specs.Prelude.{◌≡◌, ◌<◌, ◌≤◌, EachIndex, IfSome, slice_index};
ghost use Rattle.record_layouts.specs.Desc.{FitsDesc};
ghost use Rattle.dead_reader.specs.Losses.{bit_if, bits_lost, loses, loses_by, may_lack_page, names_file, one_loses};

use crate::terminals::terminal_decodes;
use record_layouts::{CACHE_ENTRIES, DescRec, RecordView};

// One file more counts so much in the word that names the owner of a cache entry.
const FILE_UNIT: u32 = 1 << 20;

// The bits of a mask.
const CLOSED: u32 = 1;

const PAGE_LOST: u32 = 2;

const RESET: u32 = 4;

const SIGNALS_LOST: u32 = 8;

/// What a process can lose with a descriptor.
#[derive(Clone, Copy, Debug, PartialEq, Eq)]
pub(crate) enum Loss {
    /// It is closed.
    Closed,
    /// A page of its file may be lost.
    Page,
    /// Its terminal is reset.
    Terminal,
}

fn bit_if(test: bool, bit: u32) -> u32
    ensures value { result ≡ bit_if test bit }
    ensures fits { result ≤ bit }
{
    if test { bit } else { 0 }
}

// The word that names the owner of a cache entry names this file.
fn names_file(file: u32, word: u32) -> bool
    requires { file < 32 }
    ensures { result ≡ names_file file word }
{
    word / FILE_UNIT == file + 1
}

// A page of the file may be lost: an entry of the cache cannot be read, and its owner is of this file.
#[tactic(auto, unfolding(record_layouts::specs::Left::may_lack_page))]
fn may_lack_page<V: RecordView>(view: &V, file: u32) -> bool
    requires { file < 32 }
    ensures { result ≡ may_lack_page (V.records view.now) file }
{
    for entry in 0..CACHE_ENTRIES {
        if view.cache(entry).is_none() && names_file(file, view.cache_owner(entry)) {
            return true;
        }
    }
    false
}

// What a descriptor lost, by its description.
fn loses_by<V: RecordView>(view: &V, loss: Loss, description: Option<DescRec>) -> bool
    requires { IfSome description FitsDesc }
    ensures { result ≡ loses_by (V.records view.now) loss description }
{
    let Some(description) = description else {
        return loss == Loss::Closed;
    };
    match loss {
        Loss::Closed => description.is_on_file() && view.file(description.index).is_none(),
        Loss::Page => description.is_on_file() && may_lack_page(view, description.index),
        Loss::Terminal => description.is_on_terminal()
            && !terminal_decodes(view, description.index),
    }
}

// What a descriptor lost, by its word in the record of its process.
fn loses<V: RecordView>(view: &V, loss: Loss, word: u32) -> bool
    requires { word ≤ 32 }
    ensures { result ≡ loses (V.records view.now) loss word }
{
    word != 0 && loses_by(view, loss, view.desc(word - 1))
}

// One of the descriptors lost this.
#[tactic(auto, unfolding(crate::specs::Losses::one_loses))]
fn one_loses<V: RecordView>(view: &V, loss: Loss, descriptors: &[u32; 8]) -> bool
    requires { EachIndex descriptors.now (λ k. slice_index descriptors.now k ≤ 32) }
    ensures { result ≡ one_loses (V.records view.now) loss descriptors.now }
{
    for k in 0..8 {
        if loses(view, loss, descriptors[k]) {
            return true;
        }
    }
    false
}

/// The bits of what the process in a slot lost, by the words of its descriptors.
#[tactic(auto, unfolding(crate::specs::Losses::bits_lost))]
pub(crate) fn bits_lost<V: RecordView>(view: &V, slot: u32, descriptors: &[u32; 8]) -> u32
    requires slot { slot < 16 }
    requires descriptors { EachIndex descriptors.now (λ k. slice_index descriptors.now k ≤ 32) }
    ensures { result ≡ bits_lost (V.records view.now) slot descriptors.now }
{
    bit_if(one_loses(view, Loss::Closed, descriptors), CLOSED)
        + bit_if(one_loses(view, Loss::Page, descriptors), PAGE_LOST)
        + bit_if(one_loses(view, Loss::Terminal, descriptors), RESET)
        + bit_if(view.sig(slot).is_none(), SIGNALS_LOST)
}
