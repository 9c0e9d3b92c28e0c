// One replica's log: what is kept of it, what is read of it, and what it refuses (24 to 42).
#![tactic(auto, unfolding(crate::specs::Meaning::view_of, definition::specs::Log::hard_state_successor_rows, definition::specs::Log::snapshot_successor_rows, definition::specs::Log::validate_snapshot_successor))]

ghost use Rattle.std.specs.Prelude.{◌≡◌, ◌&&◌, ℕ, ◌+◌, ◌-◌, ◌*◌, ◌≤◌, max, length};
ghost use Rattle.definition.specs.Table.{◌=?◌, ◌≠?◌, ◌<?◌, first_of};
ghost use Rattle.definition.specs.Records.{Identity, configuration, same_payload};
ghost use Rattle.definition.specs.Log.{appended};
ghost use Rattle.definition.specs.Recovery.{command_bytes};
ghost use Rattle.ids.specs.Refusal.{checked_of};
ghost use Rattle.store.specs.Splice.{part, splice};
ghost use Rattle.codec.specs.Records.{payload_of};
ghost use Rattle.view.specs.Meaning.{payload_in, cell_at, size_of, after_of, base_of};
ghost use Rattle.view.specs.Model.{empty_header, with_entry, with_commit, with_hard_state, with_hard_at, unvoted_hard, raised_from, raised_hard, covered_by, with_pointer, normalized_from, normalized_hard, maximum_term, finished};
ghost use Rattle.view.specs.Kept.{kept_payload, kept_entry, cell_for, existing_of, Comparable, Writable};
ghost use Rattle.view.specs.Decisions.{outcome_of, answered, new_rows, held_rows, held_from, accepted_held, replayed, entry_answer, replay_answer, hard_state_rows_of, successor_rows_of, install_rows_of, pointer_rows_of};
ghost use Rattle.view.specs.Readers.{first_index_of, boundary_of, last_entry_of, last_index_of, last_of, place_of, first_retained_of};

use codec::{
    ConfChangeKind, DurableRaftEntryPayload, HardState, MAX_COMMAND_BYTES, RaftLogEntryRecord,
    RaftSnapshotPointerRecord,
};
use frontier::RaftProgress;
use ids::{Lsn, RaftReplicaIdentity, Refusal, ReplicaId};

// A kept payload. A normal command's bytes stand in its cell of the store. It has the three fields of a change, as the record's payload
// has; one struct for them would be one more name at each place that looks at them, and no plainer.
#[derive(Clone, Copy, Debug, PartialEq, Eq)]
pub enum EntryPayload {
    Normal {
        len: usize,
    },
    Configuration {
        kind: ConfChangeKind,
        expected_version: u64,
        replica_id: ReplicaId,
    },
}

// A kept entry and the LSN of the record that last supplied it. Its index follows from its place.
#[derive(Clone, Copy, Debug, PartialEq, Eq)]
pub struct RecoveredRaftLogEntry {
    pub term: u64,
    pub lsn: Lsn,
    pub payload: EntryPayload,
}

// What is kept for a replica beside its entries: `len` of these are held, at most 64. Where it is sound (document 01): snapshot_index and
// snapshot_term are those of `snapshot`, and 0 without one, and both are 0 or neither; progress is snapshot_index, snapshot_term,
// snapshot_index; each held entry has an index, so snapshot_index + len is at most 2^64 - 1, or snapshot_index is that and len at most 1;
// no kept vote is 0.
#[derive(Clone, Copy, Debug, PartialEq, Eq)]
pub struct Header {
    pub identity: RaftReplicaIdentity,
    pub len: usize,
    pub snapshot_index: u64,
    pub snapshot_term: u64,
    pub committed_index: u64,
    pub last_replayed_lsn: Option<Lsn>,
    pub hard_state: Option<HardState>,
    pub hard_state_lsn: Option<Lsn>,
    pub snapshot: Option<RaftSnapshotPointerRecord>,
    pub snapshot_pointer_lsn: Option<Lsn>,
    pub progress: RaftProgress,
}

// The index after another; after the largest there is only itself.
fn after(index: u64) -> u64
    ensures { result ≡ after_of index }
{
    index.saturating_add(1)
}

impl Header {
    // The index of entry place 0.
    pub fn base(self) -> u64
        ensures { result ≡ base_of self }
    {
        after(self.snapshot_index)
    }

    // How many entries are held.
    pub fn len(self) -> usize
        ensures { result ≡ self.len }
    {
        self.len
    }

    pub fn is_empty(self) -> bool
        ensures { result ≡ (self.len =? 0) }
    {
        self.len == 0
    }

    // The first held entry's index.
    pub fn first_index(self) -> Option<u64>
        ensures { result ≡ first_index_of self }
    {
        if self.len == 0 {
            return None;
        }
        Some(self.base())
    }

    // The last entry's index, of one entry at least. What would pass 64 bits is their largest number.
    fn last_entry(self) -> u64
        ensures { result ≡ last_entry_of self }
    {
        let first = self.base();
        if self.len == 0 {
            return first - 1;
        }
        first.saturating_add(self.len as u64 - 1)
    }

    // The last entry's index or, without entries, the boundary's.
    pub fn last_index(self) -> Option<u64>
        ensures { result ≡ last_index_of self }
    {
        if self.len != 0 {
            return Some(self.last_entry());
        }
        if self.snapshot_index == 0 {
            return None;
        }
        Some(self.snapshot_index)
    }

    // The last index, none is 0.
    pub fn last(self) -> u64
        ensures { result ≡ last_of self }
    {
        if self.len == 0 {
            return self.snapshot_index;
        }
        self.last_entry()
    }

    // Index and term of the last included entry of the snapshot.
    pub fn snapshot_boundary(self) -> Option<(u64, u64)>
        ensures { result ≡ boundary_of self }
    {
        if self.snapshot_index == 0 {
            return None;
        }
        Some((self.snapshot_index, self.snapshot_term))
    }

    pub fn committed_index(self) -> u64
        ensures { result ≡ self.committed_index }
    {
        self.committed_index
    }

    pub fn last_replayed_lsn(self) -> Option<Lsn>
        ensures { result ≡ self.last_replayed_lsn }
    {
        self.last_replayed_lsn
    }

    // The first held entry's LSN; `first` is the entry at place 0.
    pub fn first_retained_lsn(self, first: RecoveredRaftLogEntry) -> Option<Lsn>
        ensures { result ≡ first_retained_of self first }
    {
        if self.len == 0 {
            return None;
        }
        Some(first.lsn)
    }

    // The place at which an index is held.
    pub fn place_of(self, index: u64) -> Option<usize>
        ensures { result ≡ place_of self index }
    {
        let place = index.checked_sub(self.base())? as usize;
        if self.len <= place {
            return None;
        }
        Some(place)
    }

    // The place at which the index before is held.
    pub fn predecessor_place(self, index: u64) -> Option<usize>
        ensures { result ≡ place_of self (index - 1) }
    {
        self.place_of(index.saturating_sub(1))
    }

    // How many of the held entries a snapshot at an index covers.
    pub fn covered_by(self, index: u64) -> usize
        ensures { result ≡ covered_by self index }
    {
        let covered = after(index).saturating_sub(self.base()) as usize;
        covered.min(self.len)
    }

    // How many entries stand at an index and after it.
    fn held_from(self, index: u64) -> usize
        ensures { result ≡ held_from self index }
    {
        let before = index.saturating_sub(self.base()) as usize;
        self.len.saturating_sub(before)
    }
}

// The most entries that a replica may hold.
pub const MAX_RETAINED_ENTRIES: usize = 64;

// What is held at a record's index: an entry's term and, in the same term, whether the payload is the same.
#[derive(Clone, Copy, Debug, PartialEq, Eq)]
pub struct Existing {
    pub term: u64,
    pub same_payload: bool,
}

// What a replacement took away, the replaced entry among it.
#[derive(Clone, Copy, Debug, PartialEq, Eq)]
pub struct Removed {
    pub removed_entries: usize,
}

// What an entry does to the log.
#[derive(Clone, Copy, Debug, PartialEq, Eq)]
pub enum RaftLogReplayOutcome {
    Appended,
    IdempotentReplay,
    ReplacedSuffix(Removed),
}

// Whether an entry would begin a log anywhere but at 1 (28).
fn missing_prefix(h: Header, index: u64) -> bool
    ensures { result ≡ (h.len =? 0 && h.snapshot_index =? 0 && index ≠? 1) }
{
    h.is_empty() && h.snapshot_index == 0 && index != 1
}

// An entry at an index that is not held (28, 30 to 32).
fn replay_new(h: Header, prior: u64, index: u64, term: u64) -> Result<RaftLogReplayOutcome, Refusal>
    ensures { outcome_of result ≡ answered (first_of (new_rows h prior index term)) appended }
{
    if missing_prefix(h, index) {
        return Err(Refusal::MissingLogPrefix);
    }
    if h.last().checked_add(1) != Some(index) {
        return Err(Refusal::NonContiguousAppend);
    }
    if term < prior {
        return Err(Refusal::LogTermRegression);
    }
    if MAX_RETAINED_ENTRIES <= h.len {
        return Err(Refusal::LogFull);
    }
    Ok(RaftLogReplayOutcome::Appended)
}

// An entry at an index that is held (26, 27, 31).
fn replay_held(
    h: Header,
    held: Existing,
    prior: u64,
    index: u64,
    term: u64,
) -> Result<RaftLogReplayOutcome, Refusal>
    ensures { outcome_of result ≡ answered (first_of (held_rows h held.term held.same_payload prior index term)) (accepted_held h held.term index term) }
{
    if held.term == term {
        if !held.same_payload {
            return Err(Refusal::ConflictingPayload);
        }
        return Ok(RaftLogReplayOutcome::IdempotentReplay);
    }
    if index <= h.committed_index {
        return Err(Refusal::CommittedPrefixOverwrite);
    }
    if term < prior {
        return Err(Refusal::LogTermRegression);
    }
    Ok(RaftLogReplayOutcome::ReplacedSuffix(Removed {
        removed_entries: h.held_from(index),
    }))
}

// An entry past the boundary (26 to 32).
fn replay(
    h: Header,
    existing: Option<Existing>,
    prior: u64,
    index: u64,
    term: u64,
) -> Result<RaftLogReplayOutcome, Refusal>
    ensures { outcome_of result ≡ replayed h existing prior index term }
{
    match existing {
        None => replay_new(h, prior, index, term),
        Some(held) => replay_held(h, held, prior, index, term),
    }
}

// An entry that is observed (24, 26 to 32). `prior` is the predecessor's term.
pub fn decide_entry(
    h: Header,
    existing: Option<Existing>,
    prior: u64,
    index: u64,
    term: u64,
) -> Result<RaftLogReplayOutcome, Refusal>
    ensures { outcome_of result ≡ entry_answer h existing prior index term }
{
    if index <= h.progress.truncated_through_index {
        return Err(Refusal::EntryAtOrBelowTruncation);
    }
    replay(h, existing, prior, index, term)
}

// An entry of a batch (25 to 32). Beside decide_entry: another bound and another refusal come first, and as parameters of one function
// they are no plainer.
pub fn decide_replay(
    h: Header,
    existing: Option<Existing>,
    prior: u64,
    index: u64,
    term: u64,
) -> Result<RaftLogReplayOutcome, Refusal>
    ensures { outcome_of result ≡ replay_answer h existing prior index term }
{
    if index <= h.snapshot_index {
        return Err(Refusal::EntryAtOrBelowSnapshot);
    }
    replay(h, existing, prior, index, term)
}

// A hard state that is observed (33 to 38).
pub fn decide_hard_state(h: Header, received: HardState) -> Result<(), Refusal>
    ensures { checked_of result ≡ first_of (hard_state_rows_of h received) }
{
    codec::hard_state_successor_rows(h.hard_state, received)?;
    if h.last() < received.commit {
        return Err(Refusal::HardStateCommitBeyondRecoveredLog);
    }
    if received.commit < h.committed_index {
        return Err(Refusal::ViewCommitRegression);
    }
    Ok(())
}

// A pointer after the kept one of the same replica (39, 40).
pub fn decide_successor(
    kept: Option<RaftSnapshotPointerRecord>,
    p: RaftSnapshotPointerRecord,
) -> Result<(), Refusal>
    ensures { (i : Identity) → checked_of result ≡ first_of (successor_rows_of i kept p) }
{
    let Some(old) = kept else {
        return Ok(());
    };
    let own = RaftSnapshotPointerRecord {
        identity: p.identity,
        ..old
    };
    codec::validate_snapshot_successor(Some(own), p)
}

// Whether a pointer beyond the boundary has a lower term (41).
fn term_regresses(h: Header, p: RaftSnapshotPointerRecord) -> bool
    ensures { result ≡ (h.snapshot_index <? p.last_included_index && p.last_included_term <? h.snapshot_term) }
{
    h.snapshot_index < p.last_included_index && p.last_included_term < h.snapshot_term
}

// A pointer beside the log (41, 42). `held` is the term of the entry held at its index.
pub fn decide_install(
    h: Header,
    p: RaftSnapshotPointerRecord,
    held: Option<u64>,
) -> Result<(), Refusal>
    ensures { checked_of result ≡ first_of (install_rows_of h p held) }
{
    if term_regresses(h, p) {
        return Err(Refusal::SnapshotTermRegression);
    }
    let Some(term) = held else {
        return Ok(());
    };
    if term != p.last_included_term {
        return Err(Refusal::SnapshotBoundaryTermMismatch);
    }
    Ok(())
}

// A pointer that is observed (39 to 42).
pub fn decide_pointer(
    h: Header,
    p: RaftSnapshotPointerRecord,
    held: Option<u64>,
) -> Result<(), Refusal>
    ensures { (i : Identity) → checked_of result ≡ first_of (pointer_rows_of i h p held) }
{
    decide_successor(h.snapshot, p)?;
    decide_install(h, p, held)
}

// A hard state of a term and a commit, with no vote.
fn unvoted(term: u64, commit: u64) -> HardState
    ensures { result ≡ unvoted_hard term commit }
{
    HardState {
        current_term: term,
        voted_for: None,
        commit,
    }
}

// The hard state `old` after a pointer: the term is at least the pointer's, the commit at least the pointer's index.
fn raised_from(p: RaftSnapshotPointerRecord, old: HardState) -> HardState
    ensures { result ≡ raised_from p old }
{
    if old.current_term < p.last_included_term {
        return unvoted(p.last_included_term, p.last_included_index);
    }
    HardState {
        commit: old.commit.max(p.last_included_index),
        ..old
    }
}

// The hard state after a pointer, kept before or not.
fn raised(p: RaftSnapshotPointerRecord, kept: Option<HardState>) -> HardState
    ensures { result ≡ raised_hard p kept }
{
    let Some(old) = kept else {
        return unvoted(p.last_included_term, p.last_included_index);
    };
    raised_from(p, old)
}

// The hard state `old` after finishing: the term is at least m.
fn normalized_from(m: u64, old: HardState) -> HardState
    ensures { result ≡ normalized_from m old }
{
    if old.current_term < m {
        return unvoted(m, old.commit);
    }
    old
}

// The hard state after finishing; where none is kept its commit is the view's.
fn normalized(m: u64, committed: u64, kept: Option<HardState>) -> HardState
    ensures { result ≡ normalized_hard m committed kept }
{
    let Some(old) = kept else {
        return unvoted(m, committed);
    };
    normalized_from(m, old)
}

impl Header {
    // The header of a replica that holds nothing.
    pub fn new(identity: RaftReplicaIdentity) -> Header
        ensures { result ≡ empty_header identity }
    {
        Header {
            identity,
            len: 0,
            snapshot_index: 0,
            snapshot_term: 0,
            committed_index: 0,
            last_replayed_lsn: None,
            hard_state: None,
            hard_state_lsn: None,
            snapshot: None,
            snapshot_pointer_lsn: None,
            progress: RaftProgress {
                truncated_through_index: 0,
                truncated_through_term: 0,
                applied_index: 0,
            },
        }
    }

    // An entry was accepted at an LSN, and `len` are held now.
    pub fn with_entry(self, len: usize, lsn: Lsn) -> Header
        ensures { result ≡ with_entry self len lsn }
    {
        Header {
            len,
            last_replayed_lsn: Some(lsn),
            ..self
        }
    }

    // The view's commit is advanced.
    pub fn with_commit(self, commit: u64) -> Header
        ensures { result ≡ with_commit self commit }
    {
        Header {
            committed_index: commit,
            ..self
        }
    }

    // Another hard state and another LSN of it.
    pub fn with_hard_at(self, hard_state: Option<HardState>, lsn: Option<Lsn>) -> Header
        ensures { result ≡ with_hard_at self hard_state lsn }
    {
        Header {
            hard_state,
            hard_state_lsn: lsn,
            ..self
        }
    }

    // A hard state was accepted at an LSN.
    pub fn with_hard_state(self, received: HardState, lsn: Lsn) -> Header
        ensures { result ≡ with_hard_state self received lsn }
    {
        let advanced = self.with_commit(received.commit);
        advanced.with_hard_at(Some(received), Some(lsn))
    }

    // A pointer was accepted at an LSN, which drops k entries.
    pub fn with_pointer(self, p: RaftSnapshotPointerRecord, lsn: Lsn, k: usize) -> Header
        requires { k ≤ self.len }
        ensures { result ≡ with_pointer self p lsn k }
    {
        Header {
            len: self.len - k,
            snapshot_index: p.last_included_index,
            snapshot_term: p.last_included_term,
            committed_index: self.committed_index.max(p.last_included_index),
            last_replayed_lsn: Some(lsn),
            hard_state: Some(raised(p, self.hard_state)),
            snapshot: Some(p),
            snapshot_pointer_lsn: Some(lsn),
            progress: RaftProgress {
                truncated_through_index: p.last_included_index,
                truncated_through_term: p.last_included_term,
                applied_index: p.last_included_index,
            },
            ..self
        }
    }

    // The largest of the boundary's term and the terms of the held entries, which stand first.
    pub fn maximum_term(self, entries: &[RecoveredRaftLogEntry]) -> u64
        ensures { result ≡ maximum_term self entries.now }
    {
        let held = self.len.min(entries.len());
        entries[..held]
            .iter()
            .fold(self.snapshot_term, |m, e| m.max(e.term))
    }

    // Finishing, where m is the largest of boundary term and held terms.
    pub fn normalize_hard_state_term(self, m: u64) -> Header
        ensures { result ≡ finished self m }
    {
        if m == 0 {
            return self;
        }
        let hard_state = normalized(m, self.committed_index, self.hard_state);
        self.with_hard_at(Some(hard_state), self.hard_state_lsn)
    }
}

// What is kept of a payload.
pub fn kept_payload(payload: DurableRaftEntryPayload) -> EntryPayload
    ensures { result ≡ kept_payload payload }
{
    match payload {
        DurableRaftEntryPayload::Normal { len, .. } => EntryPayload::Normal { len },
        DurableRaftEntryPayload::Configuration {
            kind,
            expected_version,
            replica_id,
        } => EntryPayload::Configuration {
            kind,
            expected_version,
            replica_id,
        },
    }
}

// What is kept of an entry accepted at an LSN.
pub fn kept_entry(r: RaftLogEntryRecord, lsn: Lsn) -> RecoveredRaftLogEntry
    ensures { result ≡ kept_entry r lsn }
{
    RecoveredRaftLogEntry {
        term: r.term,
        lsn,
        payload: kept_payload(r.payload),
    }
}

// Whether a held payload, its cell at a byte of the store, is a record's.
pub fn same_payload(
    kept: EntryPayload,
    store: &[u8],
    at: usize,
    payload: DurableRaftEntryPayload,
    lent: &[u8],
) -> bool
    requires { Comparable kept store.now at payload lent.now }
    ensures { result ≡ same_payload (payload_in kept (part at 64 store.now)) (payload_of payload lent.now) }
{
    match (kept, payload) {
        (EntryPayload::Normal { len }, DurableRaftEntryPayload::Normal { place, len: size }) => {
            store::same_cell(store, at, len, lent, place, size)
        }
        (
            EntryPayload::Configuration {
                kind,
                expected_version,
                replica_id,
            },
            DurableRaftEntryPayload::Configuration {
                kind: received_kind,
                expected_version: received_version,
                replica_id: received_id,
            },
        ) => {
            kind == received_kind
                && expected_version == received_version
                && replica_id == received_id
        }
        _ => false,
    }
}

// What is held at a record's index, by the entry and its cell at a byte of the store. Bytes are compared only in the same term.
pub fn existing_entry(
    e: RecoveredRaftLogEntry,
    store: &[u8],
    at: usize,
    r: RaftLogEntryRecord,
    lent: &[u8],
) -> Existing
    requires { Comparable e.payload store.now at r.payload lent.now }
    ensures { result ≡ existing_of e (part at 64 store.now) r lent.now }
{
    let same_payload = e.term == r.term && same_payload(e.payload, store, at, r.payload, lent);
    Existing {
        term: e.term,
        same_payload,
    }
}

// The cell for a payload, at a byte of the store.
pub fn put_payload(store: &mut [u8], at: usize, payload: DurableRaftEntryPayload, lent: &[u8])
    requires { Writable store.old at payload lent.now }
    ensures { store.new ≡ splice store.old at (cell_for payload lent.now) }
{
    match payload {
        DurableRaftEntryPayload::Normal { place, len } => {
            store::put_cell(store, at, lent, place, len);
        }
        DurableRaftEntryPayload::Configuration { .. } => {
            store::clear(store, at, MAX_COMMAND_BYTES);
        }
    }
}

// The command of a payload that is kept with cell q of a block; a change of configuration has none.
pub fn command(block: &[u8], q: usize, payload: EntryPayload) -> &[u8]
    requires { (64 * q + 64 ≤ length block.now) × (size_of payload ≤ 64) }
    ensures { result.now ≡ command_bytes (payload_in payload (cell_at block.now q)) }
{
    match payload {
        EntryPayload::Normal { len } => {
            let at = 64 * q;
            let end = at + len;
            &block[at..end]
        }
        EntryPayload::Configuration { .. } => &block[0..0],
    }
}
