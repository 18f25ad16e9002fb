//! Records that are set together.
ghost use Rattle.std.specs.Prelude.{◌≡◌, ◌≢◌, ◌<◌, ◌≤◌, ◌==◌, [], ◌∷◌, ◌++◌, length, map, All};
ghost use Rattle.arrayvec.specs.ArrayVec.{array_vec_len};
ghost use Rattle.record_layouts.specs.Patch.{IsPatch, IsPatchItem};
ghost use Rattle.record_layouts.specs.Parts.{item_of, record_of};

use crate::cache::CacheRec;
use crate::desc::DescRec;
use crate::exit::ExitRec;
use crate::file::FileRec;
use crate::head::HeadRec;
use crate::places::RecordId;
use crate::proc::ProcRec;
use crate::row::RowRec;
use crate::sig::SigRec;
use crate::term::TermRec;
use arrayvec::ArrayVec;
use std::marker::Model;

// The exit record of a pid that no process had.
const NO_EXIT: ExitRec = ExitRec { state: 0, value: 0 };

/// A record of any kind.
#[derive(Clone, Copy, Debug, PartialEq, Eq)]
pub enum AnyRec {
    Head(HeadRec),
    Proc(ProcRec),
    Sig(SigRec),
    Desc(DescRec),
    File(FileRec),
    Cache(CacheRec),
    Term(TermRec),
    Row(RowRec),
    Exit(ExitRec),
}

/// A record, and where in an area it is to stand.
#[derive(Clone, Copy, Debug, PartialEq, Eq)]
pub struct PatchItem {
    pub id: RecordId,
    pub rec: AnyRec,
}

impl Default for PatchItem {
    /// The exit record of pid 1 where no process had this pid.
    fn default() -> Self
        ensures { result ≡ record { id = RecordId.Exit 1; rec = AnyRec.Exit (record { state = 0; value = 0 }) } }
    {
        PatchItem {
            id: RecordId::Exit(1),
            rec: AnyRec::Exit(NO_EXIT),
        }
    }
}

/// Records that are set together, at most six. Each is of the kind of its id, and no two have one id.
#[derive(Debug, Drop)]
pub struct Patch {
    pub items: ArrayVec<PatchItem, 6>,
}

impl Patch {
    /// No record.
    pub fn new() -> Patch
        ensures none { result.items.items ≡ [] }
        ensures valid { IsPatch result.items.items }
    {
        Patch {
            items: ArrayVec::new(),
        }
    }

    /// Adds a record. There are fewer than six, and none with its id.
    pub fn put(&mut self, id: RecordId, rec: AnyRec)
        requires room { array_vec_len self.old.items < 6 }
        requires item { IsPatchItem (record { id = id; rec = rec }) }
        requires other { All (λ one. one.id ≢ id) self.old.items.items }
        ensures items { self.new.items.items ≡ self.old.items.items ++ (record { id = id; rec = rec }) ∷ [] }
        ensures valid { IsPatch self.old.items.items → IsPatch self.new.items.items }
    {
        self.items.push(PatchItem { id, rec });
    }

    /// The same records, where they stand in this patch.
    pub fn view(&self) -> PatchView<'_>
        ensures { result ≡ self.now.items.items }
    {
        let mut patch = PatchView::new();
        for item in self.items.as_slice() {
            patch.put(item.id, RecordRef::of(&item.rec));
        }
        patch
    }
}

/// A record of any kind, where it stands.
#[derive(Clone, Copy, Debug)]
pub enum RecordRef<'r> {
    Head(&'r HeadRec),
    Proc(&'r ProcRec),
    Sig(&'r SigRec),
    Desc(&'r DescRec),
    File(&'r FileRec),
    Cache(&'r CacheRec),
    Term(&'r TermRec),
    Row(&'r RowRec),
    Exit(&'r ExitRec),
}

impl<'r> RecordRef<'r> {
    /// The record, where it stands.
    pub fn of(rec: &'r AnyRec) -> RecordRef<'r>
        ensures { record_of result ≡ rec.now }
    {
        match rec {
            AnyRec::Head(head) => RecordRef::Head(head),
            AnyRec::Proc(process) => RecordRef::Proc(process),
            AnyRec::Sig(signals) => RecordRef::Sig(signals),
            AnyRec::Desc(description) => RecordRef::Desc(description),
            AnyRec::File(file) => RecordRef::File(file),
            AnyRec::Cache(entry) => RecordRef::Cache(entry),
            AnyRec::Term(terminal) => RecordRef::Term(terminal),
            AnyRec::Row(row) => RecordRef::Row(row),
            AnyRec::Exit(exit) => RecordRef::Exit(exit),
        }
    }
}

/// A record where it stands, and where in an area it is to stand.
#[derive(Clone, Copy, Debug)]
pub struct PatchPart<'r> {
    pub id: RecordId,
    pub rec: RecordRef<'r>,
}

impl Default for PatchPart<'_> {
    /// The exit record of pid 1 where no process had this pid.
    fn default() -> Self {
        PatchPart {
            id: RecordId::Exit(1),
            rec: RecordRef::Exit(&NO_EXIT),
        }
    }
}

/// Records that are set together, at most six, each where it stands with its owner: so none of them is moved to be set.
/// Contracts see the list of the records.
#[derive(Drop)]
pub struct PatchView<'r> {
    parts: ArrayVec<PatchPart<'r>, 6>,
}

impl<'r> Model for PatchView<'r> {
    ghost use Rattle.std.specs.Prelude.{List, map};
    ghost use Rattle.record_layouts.specs.declared.patch.PatchItem.{PatchItem};
    ghost use Rattle.record_layouts.specs.Parts.{item_of};

    ghost Value = { List PatchItem };

    ghost view = { λ p. map item_of p.parts.items };
}

impl<'r> PatchView<'r> {
    /// No record.
    pub fn new() -> PatchView<'r>
        ensures { result ≡ [] }
    {
        PatchView {
            parts: ArrayVec::new(),
        }
    }

    /// Adds a record. There are fewer than six.
    pub fn put(&mut self, id: RecordId, rec: RecordRef<'r>)
        requires { length self.old < 6 }
        ensures { self.new ≡ self.old ++ (record { id = id; rec = record_of rec.entry }) ∷ [] }
    {
        self.parts.push(PatchPart { id, rec });
    }

    /// Whether there is no record.
    pub fn is_empty(&self) -> bool
        ensures { result ≡ (length self.now == 0) }
    {
        self.parts.is_empty()
    }

    /// The records.
    pub fn parts(&self) -> &[PatchPart<'r>]
        ensures value { map item_of result.now ≡ self.now }
        ensures few { length result.now ≤ 6 }
    {
        self.parts.as_slice()
    }
}
