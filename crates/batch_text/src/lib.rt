// The lines behind a journal that say a batch: whether the recovery is finished first, whose batch it is, at most one pointer, its
// entries, at most one hard state, and the indices whose commands are to be shown.
#![tactic(auto, unfolding(crate::specs::Line::finish_on, crate::specs::Line::identity_on, crate::specs::Line::line_on, crate::specs::Order::add_pointer, crate::specs::Order::add_entry, crate::specs::Order::add_hard_state, crate::specs::Order::add_show))]

ghost use Rattle.std.specs.Prelude.{◌≡◌, ◌<◌, ⊤, [], ◌∷◌, ◌++◌};
ghost use Rattle.batch_text.specs.Line.{finish_on, identity_on, snapshot_on, hard_state_on, entry_on, line_on};
ghost use Rattle.batch_text.specs.Order.{no_batch, is_open, add_pointer, add_entry, add_hard_state, add_show, added};

use batches::{BatchEntry, RaftPersistenceBatch};
use codec::{HardState, RaftSnapshotPointerRecord};
use fixed_vec::FixedVec;
use ids::RaftReplicaIdentity;
use std::alloc::AllocError;
use std::marker::Model;
use text::line::Line;
use text::record;

// The most lines of entries that are read; more than 32 entries are refused (43).
pub const MAX_ENTRY_LINES: usize = 64;

// The most lines `show`, a limit of our own: there is no heap to keep any number of them. The next one cannot be read.
pub const MAX_SHOWS: usize = 4096;

// A line behind the batch's first one.
#[derive(Clone, Copy, Debug, PartialEq, Eq)]
pub enum BatchLine {
    Pointer(RaftSnapshotPointerRecord),
    Entry(BatchEntry),
    HardState(HardState),
    Show(u64),
}

// A batch as far as its lines were read, and how many lines `show` there were. It has a model of its own, with the same fields, so that
// a copy of it may stand beside it anywhere.
#[derive(Debug, PartialEq, Eq)]
pub struct Given {
    pub snapshot: Option<RaftSnapshotPointerRecord>,
    pub entries: FixedVec<BatchEntry, MAX_ENTRY_LINES>,
    pub hard_state: Option<HardState>,
    pub shows: usize,
}

impl Model for Given {
    ghost use Rattle.batch_text.specs.GivenLines.{GivenLines};

    ghost Value = { GivenLines };

    ghost view = { λ g. record { snapshot = g.snapshot; entries = g.entries; hard_state = g.hard_state; shows = g.shows } };

    ghost inverse = { λ v. record { snapshot = v.snapshot; entries = v.entries; hard_state = v.hard_state; shows = v.shows } };
}

impl Clone for Given {
    ghost is_clone = { λ v w. w ≡ v };

    ghost is_infallible = { λ _. ⊤ };

    fn clone(&self) -> Result<Self, AllocError> {
        Ok(*self)
    }
}

impl Copy for Given {}

// finish 0|1, and exactly these bytes
pub fn finish_of(line: &Line) -> Option<bool>
    ensures { result ≡ finish_on line.now }
{
    if line.count != 1 || !line.fields[0].is_word(b"finish") {
        None
    } else if line.field.is_word(b"0") {
        Some(false)
    } else if line.field.is_word(b"1") {
        Some(true)
    } else {
        None
    }
}

// batch GROUP REPLICA
pub fn identity_of(line: &Line) -> Option<RaftReplicaIdentity>
    ensures { result ≡ identity_on line.now }
{
    if line.count != 2 || !line.fields[0].is_word(b"batch") {
        return None;
    }
    record::identity_of(&line.fields[1], &line.field)
}

// P version group replica ID index term applied size rest checksum
fn pointer_of(line: &Line) -> Option<RaftSnapshotPointerRecord>
    ensures { result ≡ snapshot_on line.now }
{
    if line.count != 10 {
        return None;
    }
    record::pointer_of(line, 1)
}

// H term vote commit
fn hard_state_of(line: &Line) -> Option<HardState>
    ensures { result ≡ hard_state_on line.now }
{
    if line.count != 3 {
        return None;
    }
    record::hard_state_of(&line.fields[1], &line.fields[2], &line.field)
}

// E index term, then the payload
fn entry_of(line: &Line, lens: &[u8]) -> Option<BatchEntry>
    ensures { result ≡ entry_on line.now lens.now }
{
    Some(BatchEntry {
        index: line.fields[1].number()?,
        term: line.fields[2].number()?,
        payload: record::payload_of(line, 3, lens)?,
    })
}

// What a line behind the batch's first one says. `lens` has the lengths of the commands that are given.
pub fn batch_line(line: &Line, lens: &[u8]) -> Option<BatchLine>
    ensures { result ≡ line_on line.now lens.now }
{
    let kind = &line.fields[0];
    if kind.is_word(b"P") {
        Some(BatchLine::Pointer(pointer_of(line)?))
    } else if kind.is_word(b"H") {
        Some(BatchLine::HardState(hard_state_of(line)?))
    } else if kind.is_word(b"E") {
        Some(BatchLine::Entry(entry_of(line, lens)?))
    } else {
        Some(BatchLine::Show(record::header_of(line, b"show", u64::MAX)?))
    }
}

impl Given {
    // No line yet.
    pub fn none() -> Given
        ensures { result ≡ no_batch }
    {
        Given {
            snapshot: None,
            entries: FixedVec::new(),
            hard_state: None,
            shows: 0,
        }
    }

    // The batch that the lines say.
    pub fn batch(&self) -> RaftPersistenceBatch<'_>
        ensures snapshot { result.snapshot ≡ self.now.snapshot }
        ensures entries { result.entries.now ≡ self.now.entries.items }
        ensures hard_state { result.hard_state ≡ self.now.hard_state }
    {
        RaftPersistenceBatch {
            snapshot: self.snapshot,
            entries: self.entries.as_slice(),
            hard_state: self.hard_state,
        }
    }

    // Whether a hard state may come: no other, and no `show` yet.
    fn is_open(&self) -> bool
        ensures { result ≡ is_open self.now }
    {
        self.shows == 0 && self.hard_state.is_none()
    }

    // A pointer stands before all else.
    fn with_pointer(mut self, p: RaftSnapshotPointerRecord) -> Option<Given>
        ensures { result ≡ add_pointer self p }
    {
        if !self.is_open() || !self.entries.is_empty() || self.snapshot.is_some() {
            return None;
        }
        self.snapshot = Some(p);
        Some(self)
    }

    // Entries stand before the hard state, at most 64.
    fn with_entry(mut self, e: BatchEntry) -> Option<Given>
        ensures { result ≡ add_entry self e }
    {
        if !self.is_open() || MAX_ENTRY_LINES <= self.entries.len() {
            return None;
        }
        self.entries.push(e);
        Some(self)
    }

    // One hard state, before what is to be shown.
    fn with_hard_state(mut self, h: HardState) -> Option<Given>
        ensures { result ≡ add_hard_state self h }
    {
        if !self.is_open() {
            return None;
        }
        self.hard_state = Some(h);
        Some(self)
    }

    // One command more to be shown.
    fn with_show(mut self) -> Option<Given>
        ensures { result ≡ add_show self }
    {
        if MAX_SHOWS <= self.shows {
            return None;
        }
        self.shows += 1;
        Some(self)
    }

    // One line more, where it may stand. The index of a `show` is the caller's to keep.
    pub fn with_line(self, l: BatchLine) -> Option<Given>
        ensures { result ≡ added self l }
    {
        match l {
            BatchLine::Pointer(p) => self.with_pointer(p),
            BatchLine::Entry(e) => self.with_entry(e),
            BatchLine::HardState(h) => self.with_hard_state(h),
            BatchLine::Show(_) => self.with_show(),
        }
    }
}
