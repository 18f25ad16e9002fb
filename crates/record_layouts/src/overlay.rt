//! The words of an area with a valid open intent laid over them.
ghost use Rattle.std.specs.Prelude.{◌≡◌, ◌+◌, ◌*◌, ◌<◌, ◌≤◌, ◌-◌, ◌^◌, true, None, IfSome, IfNone};
ghost use Rattle.record_layouts.specs.Overlay.{EndsOpen, StandsFirst, area_at, gate_of, may_change, open_ranges, overlay, ranges_in, words_from};

use crate::intent::{Area, Change, Gate};
use ow_base::{FRAME_WORDS, WordSource};

/// What the intent block says of the area that begins at frame `base`. A word that memory does not have reads as 0.
///
/// `Closed` comes exactly where the gate is 0, `Open` exactly where a valid intent is open, and `Broken` otherwise.
pub fn gate<W: WordSource>(source: &W, base: u32) -> Gate
    requires { base + 64 ≤ 2 ^ 32 }
    ensures { result ≡ gate_of (area_at (W.words source.now) base) }
{
    let area = Area { source, base };
    area.gate(area.open_end())
}

/// A word of the area that begins at frame `base`, with the ranges of a valid open intent laid over the area, the last
/// of them on top. Where no valid intent is open it is the area's own word. A word that memory does not have reads as
/// 0. `frame` is counted from the first of the area.
pub fn overlaid<W: WordSource>(source: &W, base: u32, frame: u32, word: u32) -> u32
    requires area { base + 64 ≤ 2 ^ 32 }
    requires frame { frame < 64 }
    requires word { word < 1024 }
    ensures { result ≡ overlay (area_at (W.words source.now) base) (1024 * frame + word) }
{
    let area = Area { source, base };
    area.shown(area.open_end(), FRAME_WORDS * frame + word)
}

/// The number of the word behind the payload of the open intent of the area that begins at frame `base`. `None` comes
/// where no valid intent is open. The frames of the area have numbers below 2^32.
pub fn open_end<W: WordSource>(source: &W, base: u32) -> Option<u32>
    requires { base + 64 ≤ 2 ^ 32 }
    ensures found { IfSome result (EndsOpen (area_at (W.words source.now) base)) }
    ensures none { IfNone result (open_ranges (area_at (W.words source.now) base) ≡ None) }
{
    Area { source, base }.open_end()
}

/// The change of the range with which the words from the number `place` up to `end`, of a payload in the area that
/// begins at frame `base`, begin. `None` comes where no range of words that an intent may change stands there. The
/// frames of the area have numbers below 2^32.
pub fn change_at<W: WordSource>(source: &W, base: u32, place: u32, end: u32) -> Option<Change>
    requires room { base + 64 ≤ 2 ^ 32 }
    requires place { place ≤ end }
    requires end { end ≤ 1023 }
    ensures found { IfSome result (StandsFirst (area_at (W.words source.now) base) place end) }
    ensures changes { IfSome result (λ change. may_change change.span.begin change.span.end ≡ true) }
    ensures none { IfNone result (place < end → ranges_in (words_from (area_at (W.words source.now) base) place (end - place)) ≡ None) }
{
    Area { source, base }.change(place, end)
}
