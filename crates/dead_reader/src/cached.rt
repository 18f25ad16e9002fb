//! The pages of files that only the cache has.
ghost use Rattle.std.specs.Prelude.{◌≡◌, ◌<◌};
ghost use Rattle.dead_reader.specs.Cached.{dirty_by};

use record_layouts::RecordView;

/// The file and the page of an entry that is dirty, if that file keeps the page.
pub(crate) fn dirty<V: RecordView>(view: &V, i: u32) -> Option<(u32, u32)>
    requires { i < 64 }
    ensures { result ≡ dirty_by (V.records view.now) ((V.records view.now).caches i) }
{
    let entry = view.cache(i)?;
    if !entry.is_dirty() {
        return None;
    }
    let file = view.file(entry.file)?;
    if file.is_present() && entry.page < file.kept {
        Some((entry.file, entry.page))
    } else {
        None
    }
}
