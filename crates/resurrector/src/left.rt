//! What a panic left, as the records of a new kernel are told from it.
ghost use Rattle.std.specs.Prelude.{◌≡◌, ℕ, ◌+◌, ◌*◌, ◌/◌, ◌<◌, ◌≤◌, Some, None, IfSome, slice_get, slice_index, true};
ghost use Rattle.record_layouts.specs.Desc.{FitsDesc};
ghost use Rattle.record_layouts.specs.Exit.{FitsExit};
ghost use Rattle.record_layouts.specs.Head.{FitsHead};
ghost use Rattle.record_layouts.specs.Proc.{FitsProc};
ghost use Rattle.record_layouts.specs.Row.{FitsRow};
ghost use Rattle.record_layouts.specs.Sig.{FitsSig};
ghost use Rattle.record_layouts.specs.Term.{FitsTerm};
ghost use Rattle.record_layouts.specs.Sound.{is_used};
ghost use Rattle.dead_reader.specs.Left.{handed_of};
ghost use Rattle.dead_reader.specs.Terminals.{lacks_row, terminal_decodes};
ghost use Rattle.resurrector.specs.Procedures.{HasFewBits};
ghost use Rattle.resurrector.specs.Revived.{ended_or_free, exit_with, fate_or_lost, head_by, last_by, next_behind, reset_terminal, revived_description, revived_exit, revived_head, revived_process, revived_row, revived_signals, revived_terminal, row_or_blank, served_by, terminal_or_reset};
ghost use Rattle.resurrector.specs.Survivors.{AreOutcomes, IsSurvivor, fate_of, goes_on, has_pid, is_named, names, names_by, survivor_in};

use crate::survivors::Outcome;
use dead_reader::{HandOver, RecordView};
use kernel_builder::{blank_row, free_process, no_signals, unused_description};
use record_layouts::{
    DescRec, ExitRec, Fate, HeadRec, PIDS_END, ProcRec, ROWS, RowRec, SLOTS, SigRec, TermRec,
};

// How many pids there are.
const PIDS: u32 = PIDS_END - 1;

// The state of a process that has ended.
const ENDED: u32 = 3;

// The states of an exit record: no process had the pid, it is live, and it has ended.
const UNUSED: u32 = 0;

const LIVE: u32 = 1;

const OVER: u32 = 2;

// The status of a process that is lost, with the bits of what it lost.
const LOST: u32 = 0x300;

/// What a panic left: the records, what was handed over, how many bytes the devices of the terminals have, and what became
/// of the processes.
#[derive(Drop)]
pub(crate) struct Left<'v, V> {
    pub(crate) view: &'v V,
    pub(crate) handed: Option<HandOver>,
    pub(crate) counts: [u32; 2],
    pub(crate) outcomes: [Outcome; 16],
}

impl<V: RecordView> Left<'_, V> {
    /// The record with which the process of a slot goes on, if it does.
    pub(crate) fn survivor(&self, slot: u32) -> Option<ProcRec>
        requires stands { AreOutcomes (V.records self.now.view.now) (handed_of self.now.handed) self.now.outcomes }
        requires slot { slot < 16 }
        ensures is { result ≡ survivor_in (V.records self.now.view.now) (handed_of self.now.handed) slot }
        ensures fits { IfSome result IsSurvivor }
    {
        outcome_at(&self.outcomes, slot).survivor
    }

    // One of the processes that go on has this pid.
    #[tactic(auto, unfolding(crate::specs::Survivors::goes_on))]
    fn goes_on(&self, pid: u32) -> bool
        requires stands { AreOutcomes (V.records self.now.view.now) (handed_of self.now.handed) self.now.outcomes }
        ensures { result ≡ goes_on (V.records self.now.view.now) (handed_of self.now.handed) pid }
    {
        for slot in 0..SLOTS {
            if has_pid(pid, &self.survivor(slot)) {
                return true;
            }
        }
        false
    }

    // One of them has a descriptor with this word.
    #[tactic(auto, unfolding(crate::specs::Survivors::is_named))]
    fn is_named(&self, word: u32) -> bool
        requires stands { AreOutcomes (V.records self.now.view.now) (handed_of self.now.handed) self.now.outcomes }
        ensures { result ≡ is_named (V.records self.now.view.now) (handed_of self.now.handed) word }
    {
        for slot in 0..SLOTS {
            if names_by(word, &self.survivor(slot)) {
                return true;
            }
        }
        false
    }

    // The fate of a pid that was live in a slot.
    #[tactic(auto, unfolding(crate::specs::Survivors::fate_of))]
    pub(crate) fn fate_of(&self, pid: u32) -> Option<Fate>
        requires stands { AreOutcomes (V.records self.now.view.now) (handed_of self.now.handed) self.now.outcomes }
        requires some { 1 ≤ pid }
        requires few { pid ≤ 256 }
        ensures is { result ≡ fate_of (V.records self.now.view.now) (handed_of self.now.handed) pid }
        ensures few { IfSome result HasFewBits }
    {
        let exit = self.view.exit(pid)?;
        if exit.state != LIVE {
            return None;
        }
        let outcome = outcome_at(&self.outcomes, exit.value);
        if outcome.pid == Some(pid) {
            Some(outcome.fate)
        } else {
            None
        }
    }

    // The pid behind the greatest that was given away.
    #[tactic(auto, using(crate::proofs::Pids::next_first, crate::proofs::Pids::next_used, crate::proofs::Pids::next_unused))]
    fn next_pid(&self) -> u32
        ensures is { result ≡ next_behind (V.records self.now.view.now) 256 }
        ensures some { 1 ≤ result }
        ensures few { result ≤ 257 }
    {
        let mut next = 1;
        for before in 0..PIDS {
            if is_used(&self.view.exit(before + 1)) {
                next = before + 2;
            }
        }
        next
    }

    // The trap that counts as served.
    fn served(&self, served: u32) -> u32
        ensures { result ≡ served_by (handed_of self.now.handed) served }
    {
        match &self.handed {
            Some(handed) => handed.trap,
            None => served,
        }
    }

    // The process that was the last to run.
    fn last(&self, last: u32) -> u32
        ensures { result ≡ last_by (handed_of self.now.handed) last }
    {
        match &self.handed {
            Some(handed) if handed.pid != 0 => handed.pid,
            _ => last,
        }
    }

    /// The head with which a new kernel begins.
    #[tactic(auto, unfolding(crate::specs::Revived::revived_head))]
    pub(crate) fn head(&self) -> HeadRec
        ensures is { result ≡ revived_head (V.records self.now.view.now) (handed_of self.now.handed) }
        ensures fits { FitsHead result }
    {
        match self.view.head() {
            Some(head) => HeadRec {
                layout: head.layout,
                served: self.served(head.served),
                last: self.last(head.last),
                next: head.next,
                hand: head.hand,
            },
            None => HeadRec {
                layout: 1,
                served: self.served(0),
                last: 0,
                next: self.next_pid(),
                hand: 0,
            },
        }
    }

    // The record of a slot in which no process goes on.
    fn ended_or_free(&self, process: Option<ProcRec>) -> ProcRec
        requires stands { AreOutcomes (V.records self.now.view.now) (handed_of self.now.handed) self.now.outcomes }
        requires fits { IfSome process FitsProc }
        ensures is { result ≡ ended_or_free (V.records self.now.view.now) (handed_of self.now.handed) process }
        ensures fits { FitsProc result }
    {
        match process {
            Some(process) if process.state == ENDED && self.goes_on(process.parent) => process,
            _ => free_process(),
        }
    }

    /// The process of a slot.
    #[tactic(auto, unfolding(crate::specs::Revived::revived_process))]
    pub(crate) fn process(&self, slot: u32) -> ProcRec
        requires stands { AreOutcomes (V.records self.now.view.now) (handed_of self.now.handed) self.now.outcomes }
        requires slot { slot < 16 }
        ensures is { result ≡ revived_process (V.records self.now.view.now) (handed_of self.now.handed) slot }
        ensures fits { FitsProc result }
    {
        match self.survivor(slot) {
            Some(process) => process,
            None => self.ended_or_free(self.view.proc(slot)),
        }
    }

    /// The signals of a slot.
    #[tactic(auto, unfolding(crate::specs::Revived::revived_signals))]
    pub(crate) fn signals(&self, slot: u32) -> SigRec
        requires stands { AreOutcomes (V.records self.now.view.now) (handed_of self.now.handed) self.now.outcomes }
        requires slot { slot < 16 }
        ensures is { result ≡ revived_signals (V.records self.now.view.now) (handed_of self.now.handed) slot }
        ensures fits { FitsSig result }
    {
        let Some(process) = self.survivor(slot) else {
            return no_signals(0);
        };
        match self.view.sig(slot) {
            Some(signals) => signals,
            None => no_signals(process.pid),
        }
    }

    /// A description.
    #[tactic(auto, unfolding(crate::specs::Revived::revived_description))]
    pub(crate) fn description(&self, index: u32) -> DescRec
        requires stands { AreOutcomes (V.records self.now.view.now) (handed_of self.now.handed) self.now.outcomes }
        requires index { index < 32 }
        ensures is { result ≡ revived_description (V.records self.now.view.now) (handed_of self.now.handed) index }
        ensures fits { FitsDesc result }
    {
        if !self.is_named(index + 1) {
            return unused_description();
        }
        match self.view.desc(index) {
            Some(description) => description,
            None => unused_description(),
        }
    }

    // One of a terminal's rows does not decode.
    #[tactic(auto, unfolding(dead_reader::specs::Terminals::lacks_row))]
    fn lacks_row(&self, tty: u32) -> bool
        requires { tty < 2 }
        ensures { result ≡ lacks_row (V.records self.now.view.now) tty }
    {
        for place in 0..ROWS {
            if self.view.row(ROWS * tty + place).is_none() {
                return true;
            }
        }
        false
    }

    // A terminal's record and its rows decode.
    #[tactic(auto, unfolding(dead_reader::specs::Terminals::terminal_decodes))]
    fn terminal_decodes(&self, tty: u32) -> bool
        requires { tty < 2 }
        ensures { result ≡ terminal_decodes (V.records self.now.view.now) tty }
    {
        self.view.term(tty).is_some() && !self.lacks_row(tty)
    }

    /// A terminal. The byte that its record counts and its device does not have is still counted.
    #[tactic(auto, unfolding(crate::specs::Revived::revived_terminal))]
    pub(crate) fn terminal(&self, tty: u32) -> TermRec
        requires { tty < 2 }
        ensures is { result ≡ revived_terminal (V.records self.now.view.now) self.now.counts tty }
        ensures fits { FitsTerm result }
    {
        let count = self.counts[tty as usize];
        if !self.terminal_decodes(tty) {
            return reset_terminal(tty, count);
        }
        match self.view.term(tty) {
            Some(terminal) => terminal,
            None => reset_terminal(tty, count),
        }
    }

    /// A row of a terminal.
    #[tactic(auto, unfolding(crate::specs::Revived::revived_row))]
    pub(crate) fn row(&self, place: u32) -> RowRec
        requires { place < 48 }
        ensures is { result ≡ revived_row (V.records self.now.view.now) place }
        ensures fits { FitsRow result }
    {
        if !self.terminal_decodes(place / ROWS) {
            return blank_row(place);
        }
        match self.view.row(place) {
            Some(row) => row,
            None => blank_row(place),
        }
    }

    /// What became of a pid.
    #[tactic(auto, unfolding(crate::specs::Revived::revived_exit))]
    pub(crate) fn exit(&self, pid: u32) -> ExitRec
        requires stands { AreOutcomes (V.records self.now.view.now) (handed_of self.now.handed) self.now.outcomes }
        requires some { 1 ≤ pid }
        requires few { pid ≤ 256 }
        ensures is { result ≡ revived_exit (V.records self.now.view.now) (handed_of self.now.handed) pid }
        ensures fits { FitsExit result }
    {
        match self.view.exit(pid) {
            Some(exit) if exit.state == LIVE => exit_with(exit, fate_or_lost(self.fate_of(pid))),
            Some(exit) => exit,
            None => ExitRec {
                state: UNUSED,
                value: 0,
            },
        }
    }
}

// What became of a slot.
fn outcome_at(outcomes: &[Outcome; 16], slot: u32) -> Outcome
    requires { slot < 16 }
    ensures { slice_get outcomes.now slot ≡ Some result }
{
    outcomes[slot as usize]
}

// The process has this pid.
fn has_pid(pid: u32, survivor: &Option<ProcRec>) -> bool
    ensures { result ≡ has_pid pid survivor.now }
{
    match survivor {
        Some(process) => process.pid == pid,
        None => false,
    }
}

// One of the descriptors has this word.
#[tactic(auto, unfolding(crate::specs::Survivors::names))]
fn names(word: u32, descriptors: &[u32; 8]) -> bool
    ensures { result ≡ names word descriptors.now }
{
    for k in 0..8 {
        if descriptors[k] == word {
            return true;
        }
    }
    false
}

fn names_by(word: u32, survivor: &Option<ProcRec>) -> bool
    ensures { result ≡ names_by word survivor.now }
{
    match survivor {
        Some(process) => names(word, &process.descs),
        None => false,
    }
}

// A process had the pid.
fn is_used(exit: &Option<ExitRec>) -> bool
    ensures { result ≡ is_used exit.now }
{
    match exit {
        Some(exit) => exit.state != UNUSED,
        None => false,
    }
}

// A terminal that shows nothing, and whose screen counts from the end of what its device has.
fn reset_terminal(tty: u32, count: u32) -> TermRec
    requires { tty < 2 }
    ensures is { result ≡ reset_terminal tty count }
    ensures fits { FitsTerm result }
{
    TermRec {
        tty,
        written: count,
        last: 0,
        consumed: 0,
        top: 0,
        row: 0,
        col: 0,
        base: count,
    }
}

// A pid that has no fate was of no process that decodes.
fn fate_or_lost(fate: Option<Fate>) -> Fate
    requires { IfSome fate HasFewBits }
    ensures is { result ≡ fate_or_lost fate }
    ensures few { HasFewBits result }
{
    fate.unwrap_or(Fate::Lost(0))
}

// A pid that was live is so still, or it has ended with what it lost.
fn exit_with(exit: ExitRec, fate: Fate) -> ExitRec
    requires exit { FitsExit exit }
    requires few { HasFewBits fate }
    ensures is { result ≡ exit_with exit fate }
    ensures fits { FitsExit result }
{
    match fate {
        Fate::Lost(bits) => ExitRec {
            state: OVER,
            value: LOST + bits,
        },
        Fate::Goes | Fate::Aborted | Fate::Stands | Fate::Procedure(_) => exit,
    }
}
