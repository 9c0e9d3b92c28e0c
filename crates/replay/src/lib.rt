// What a record does to its replica: decided on the header and the two entries that it looks at, its bytes written to the
// replica's block of the store.
#![tactic(auto)]

ghost use Rattle.std.specs.Prelude.{◌≡◌, ◌-◌, ◌<◌, ◌≤◌, length, Ok};
ghost use Rattle.view.specs.Decisions.{outcome_of};
ghost use Rattle.view.specs.Model.{renewed_entry};
ghost use Rattle.view.specs.Readers.{place_of};
ghost use Rattle.ids.specs.Refusal.{checked_of};
ghost use Rattle.replay.specs.Plan.{answer_of, identity_in, index_of, look_of, empty_refuses, existing_in, prior_in, held_term_in, decided, len_after, entry_written, entry_plan, pointed, pointer_plan, Replayable};

use codec::{RaftLogEntryRecord, RaftSnapshotPointerRecord, RaftWalRecord};
use ids::{Lsn, RaftReplicaIdentity, Refusal};
use view::{Existing, Header, RaftLogReplayOutcome, RecoveredRaftLogEntry, Removed};

// What a record that is not refused is answered. Of a pointer: how many entries it covered, which went.
#[derive(Clone, Copy, Debug, PartialEq, Eq)]
pub enum Observation {
    Counted,
    Appended,
    IdempotentReplay,
    ReplacedSuffix(Removed),
    HardStateKept,
    PointerKept(usize),
}

// What an entry is answered, by what it does.
pub fn observation_of(outcome: RaftLogReplayOutcome) -> Observation
    ensures { answer_of (Ok result) ≡ outcome_of (Ok outcome) }
{
    match outcome {
        RaftLogReplayOutcome::Appended => Observation::Appended,
        RaftLogReplayOutcome::IdempotentReplay => Observation::IdempotentReplay,
        RaftLogReplayOutcome::ReplacedSuffix(removed) => Observation::ReplacedSuffix(removed),
    }
}

// Whose record it is.
pub fn owner(kind: RaftWalRecord) -> RaftReplicaIdentity
    ensures { result ≡ identity_in kind }
{
    match kind {
        RaftWalRecord::Entry(r) => r.identity,
        RaftWalRecord::HardState(r) => r.identity,
        RaftWalRecord::SnapshotPointer(p) => p.identity,
    }
}

// The index that a record looks at; a hard state looks at none.
pub fn index_of(kind: RaftWalRecord) -> u64
    ensures { result ≡ index_of kind }
{
    match kind {
        RaftWalRecord::Entry(r) => r.index,
        RaftWalRecord::HardState(_) => 0,
        RaftWalRecord::SnapshotPointer(p) => p.last_included_index,
    }
}

// The entry place of an index, one of 64; 0 where it has none.
pub fn look(head: Header, index: u64) -> usize
    ensures place { result ≡ look_of head index }
    ensures below { result < 64 }
{
    let place = index.saturating_sub(head.base()) as usize;
    if place < 64 { place } else { 0 }
}

// The same of the index before.
pub fn look_before(head: Header, index: u64) -> usize
    ensures place { result ≡ look_of head (index - 1) }
    ensures below { result < 64 }
{
    look(head, index.saturating_sub(1))
}

// What is held at a record's index, where e stands at the place looked at.
pub fn existing(
    head: Header,
    e: RecoveredRaftLogEntry,
    r: RaftLogEntryRecord,
    block: &[u8],
    lent: &[u8],
) -> Option<Existing>
    requires { Replayable head e r block.now lent.now }
    ensures { result ≡ existing_in (place_of head r.index) e block.now r lent.now }
{
    let q = head.place_of(r.index)?;
    Some(view::existing_entry(e, block, 64 * q, r, lent))
}

// The term before an index: the entry's or, where none is held, the boundary's.
pub fn prior_term(head: Header, before: RecoveredRaftLogEntry, index: u64) -> u64
    ensures { result ≡ prior_in (place_of head (index - 1)) head.snapshot_term before.term }
{
    match head.predecessor_place(index) {
        None => head.snapshot_term,
        Some(_) => before.term,
    }
}

// The term held at an index, where e stands at the place looked at.
pub fn held_term(head: Header, e: RecoveredRaftLogEntry, index: u64) -> Option<u64>
    ensures { result ≡ held_term_in (place_of head index) e.term }
{
    head.place_of(index).map(|_| e.term)
}

// The same entry, supplied again.
fn renewed(e: RecoveredRaftLogEntry, lsn: Lsn) -> RecoveredRaftLogEntry
    ensures { result ≡ renewed_entry e lsn }
{
    RecoveredRaftLogEntry { lsn, ..e }
}

// An entry that is decided: its bytes go to its cell. What is left is the entry that stands at its place then.
pub fn write_entry(
    head: Header,
    e: RecoveredRaftLogEntry,
    r: RaftLogEntryRecord,
    lsn: Lsn,
    block: &mut [u8],
    lent: &[u8],
    outcome: RaftLogReplayOutcome,
) -> RecoveredRaftLogEntry
    requires { Replayable head e r block.old lent.now }
    ensures { entry_written outcome head r.index lsn result block.new ≡ entry_plan (outcome_of (Ok outcome)) head e r lsn block.old lent.now }
{
    let q = look(head, r.index);
    match outcome {
        RaftLogReplayOutcome::Appended => {
            view::put_payload(block, 64 * q, r.payload, lent);
            view::kept_entry(r, lsn)
        }
        RaftLogReplayOutcome::IdempotentReplay => renewed(e, lsn),
        RaftLogReplayOutcome::ReplacedSuffix(_) => {
            view::put_payload(block, 64 * q, r.payload, lent);
            store::keep_cells(block, 0, q + 1);
            view::kept_entry(r, lsn)
        }
    }
}

// What an entry is answered (24, 26 to 32): e stands at the place looked at, `before` at the one before.
pub fn decide(
    head: Header,
    e: RecoveredRaftLogEntry,
    before: RecoveredRaftLogEntry,
    r: RaftLogEntryRecord,
    block: &[u8],
    lent: &[u8],
) -> Result<RaftLogReplayOutcome, Refusal>
    requires { Replayable head e r block.now lent.now }
    ensures { outcome_of result ≡ decided head e before r block.now lent.now }
{
    let held = existing(head, e, r, block, lent);
    let prior = prior_term(head, before, r.index);
    view::decide_entry(head, held, prior, r.index, r.term)
}

// How many entries are held after an entry that is decided.
pub fn len_after(head: Header, index: u64, outcome: RaftLogReplayOutcome) -> usize
    ensures { result ≡ len_after (outcome_of (Ok outcome)) head index }
{
    match outcome {
        RaftLogReplayOutcome::Appended | RaftLogReplayOutcome::ReplacedSuffix(_) => {
            look(head, index) + 1
        }
        RaftLogReplayOutcome::IdempotentReplay => head.len,
    }
}

// What a replica that holds nothing answers to a record: the same decisions, on its header.
pub fn on_empty(kind: RaftWalRecord) -> Result<(), Refusal>
    ensures { checked_of result ≡ empty_refuses kind }
{
    let head = Header::new(owner(kind));
    match kind {
        RaftWalRecord::Entry(r) => {
            view::decide_entry(head, None, 0, r.index, r.term)?;
            Ok(())
        }
        RaftWalRecord::HardState(r) => view::decide_hard_state(head, r.hard_state),
        RaftWalRecord::SnapshotPointer(p) => view::decide_pointer(head, p, None),
    }
}

// A pointer (39 to 42): e stands at the place of its index. The cells of the entries that it covers go; the header is what is left.
pub fn install_snapshot(
    head: Header,
    e: RecoveredRaftLogEntry,
    pointer: RaftSnapshotPointerRecord,
    lsn: Lsn,
    block: &mut [u8],
) -> Result<Header, Refusal>
    requires { (length block.old ≡ 4096) × (head.len ≤ 64) }
    ensures { pointed result head e block.new ≡ pointer_plan head e pointer lsn block.old }
{
    let held = held_term(head, e, pointer.last_included_index);
    view::decide_pointer(head, pointer, held)?;
    let k = head.covered_by(pointer.last_included_index);
    store::drop_cells(block, 0, k);
    Ok(head.with_pointer(pointer, lsn, k))
}
