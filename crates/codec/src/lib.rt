// Decoded records, the checks of their form (3 to 22), and when a hard state or a pointer may follow another (33 to 36, 39, 40).
#![tactic(auto, unfolding(definition::specs::Records::form_rows, definition::specs::Log::hard_state_successor_rows, definition::specs::Log::validate_hard_state_successor, definition::specs::Log::snapshot_successor_rows, definition::specs::Log::validate_snapshot_successor))]

ghost use Rattle.std.specs.Prelude.{◌≡◌, List, ℕ};
ghost use Rattle.definition.specs.Table.{first_of};
ghost use Rattle.definition.specs.Records.{command_of, normal, unfit as isUnfit, zero_configuration_replica, zero_version, zero_vote, form_rows};
ghost use Rattle.definition.specs.Log.{hard_state_successor_rows, validate_hard_state_successor, validate_snapshot_successor};
ghost use Rattle.ids.specs.Identity.{identity_of};
ghost use Rattle.ids.specs.Refusal.{checked_of};
ghost use Rattle.codec.specs.Records.{payload_of, hard_state_of, maybe_hard_state_of, pointer_record_of, maybe_pointer_of, entry_kind_of, field_rows, hard_state_kind_of, pointer_kind_of, kind_of, owner_of};

use fixed_vec::Blank;
use ids::{Lsn, RaftReplicaIdentity, Refusal, ReplicaId};

pub const RAFT_LOG_ENTRY_RECORD_VERSION: u32 = 1;

pub const RAFT_STABLE_STATE_RECORD_VERSION: u32 = 1;

pub const RAFT_SNAPSHOT_POINTER_RECORD_VERSION: u32 = 1;

// The most bytes that a normal command may have.
pub const MAX_COMMAND_BYTES: usize = 64;

// What a change of configuration does.
#[derive(Clone, Copy, Debug, PartialEq, Eq)]
pub enum ConfChangeKind {
    AddLearner,
    PromoteLearner,
    RemoveReplica,
}

// A command, as a place and a length in the bytes lent beside it, or a change of configuration.
#[derive(Clone, Copy, Debug, PartialEq, Eq)]
pub enum DurableRaftEntryPayload {
    Normal {
        place: usize,
        len: usize,
    },
    Configuration {
        kind: ConfChangeKind,
        expected_version: u64,
        replica_id: ReplicaId,
    },
}

// One log entry of a replica.
#[derive(Clone, Copy, Debug, PartialEq, Eq)]
pub struct RaftLogEntryRecord {
    pub format_version: u32,
    pub identity: RaftReplicaIdentity,
    pub index: u64,
    pub term: u64,
    pub payload: DurableRaftEntryPayload,
}

// Term, vote and commit index.
#[derive(Clone, Copy, Debug, PartialEq, Eq)]
pub struct HardState {
    pub current_term: u64,
    pub voted_for: Option<ReplicaId>,
    pub commit: u64,
}

// One hard state of a replica.
#[derive(Clone, Copy, Debug, PartialEq, Eq)]
pub struct RaftHardStateRecord {
    pub format_version: u32,
    pub identity: RaftReplicaIdentity,
    pub hard_state: HardState,
}

// Four numbers of 64 bits.
#[derive(Clone, Copy, Debug, PartialEq, Eq)]
pub struct Checksum {
    pub a: u64,
    pub b: u64,
    pub c: u64,
    pub d: u64,
}

// Where a replica's snapshot is; `rest` is the host's number for configuration, removal proof and file name.
#[derive(Clone, Copy, Debug, PartialEq, Eq)]
pub struct RaftSnapshotPointerRecord {
    pub format_version: u32,
    pub identity: RaftReplicaIdentity,
    pub snapshot_id: u64,
    pub last_included_index: u64,
    pub last_included_term: u64,
    pub applied_index: u64,
    pub size_bytes: u64,
    pub rest: u64,
    pub checksum: Checksum,
}

// A replica's record, by kind.
#[derive(Clone, Copy, Debug, PartialEq, Eq)]
pub enum RaftWalRecord {
    Entry(RaftLogEntryRecord),
    HardState(RaftHardStateRecord),
    SnapshotPointer(RaftSnapshotPointerRecord),
}

// A record of the journal; one of no Raft kind has no body.
#[derive(Clone, Copy, Debug, Default, PartialEq, Eq)]
pub struct WalRecord {
    pub lsn: Lsn,
    pub body: Option<RaftWalRecord>,
}

impl Blank for WalRecord {
    ghost use Rattle.std.specs.Prelude.{None};

    ghost blank = { record { lsn = record { 0 = 0 }; body = None } };

    fn blank() -> Self {
        WalRecord {
            lsn: Lsn::ZERO,
            body: None,
        }
    }
}

// Whether a change of configuration names replica zero (3).
pub fn zero_configuration_replica(payload: DurableRaftEntryPayload) -> bool
    ensures { (lent : List ℕ) → result ≡ zero_configuration_replica (payload_of payload lent) }
{
    match payload {
        DurableRaftEntryPayload::Normal { .. } => false,
        DurableRaftEntryPayload::Configuration { replica_id, .. } => replica_id.0 == 0,
    }
}

// Whether a change of configuration expects version zero (4).
pub fn zero_version(payload: DurableRaftEntryPayload) -> bool
    ensures { (lent : List ℕ) → result ≡ zero_version (payload_of payload lent) }
{
    match payload {
        DurableRaftEntryPayload::Normal { .. } => false,
        DurableRaftEntryPayload::Configuration {
            expected_version,
            ..
        } => expected_version == 0,
    }
}

// Whether a command is too long, or not wholly inside the lent bytes. No sum is taken: it could pass 2^64.
#[tactic(auto, using(crate::proofs::Commands::outside_unfit, crate::proofs::Commands::inside_unfit))]
fn command_unfit(place: usize, len: usize, lent: &[u8]) -> bool
    ensures { result ≡ isUnfit (normal (command_of lent.now place len)) }
{
    lent.len() < place || lent.len() - place < len || MAX_COMMAND_BYTES < len
}

// Whether a payload is an unfit command (10).
pub fn unfit(payload: DurableRaftEntryPayload, lent: &[u8]) -> bool
    ensures { result ≡ isUnfit (payload_of payload lent.now) }
{
    match payload {
        DurableRaftEntryPayload::Normal { place, len } => command_unfit(place, len, lent),
        DurableRaftEntryPayload::Configuration { .. } => false,
    }
}

// The numbers of an entry (5 to 9).
fn validate_entry_fields(r: RaftLogEntryRecord) -> Result<(), Refusal>
    ensures { checked_of result ≡ first_of (field_rows r) }
{
    if r.format_version != RAFT_LOG_ENTRY_RECORD_VERSION {
        return Err(Refusal::UnsupportedEntryVersion);
    }
    if r.identity.raft_group_id.0 == 0 {
        return Err(Refusal::ZeroRaftGroupId);
    }
    if r.identity.replica_id.0 == 0 {
        return Err(Refusal::ZeroReplicaId);
    }
    if r.index == 0 {
        return Err(Refusal::ZeroLogIndex);
    }
    if r.term == 0 {
        return Err(Refusal::ZeroTerm);
    }
    Ok(())
}

// The form of an entry (3 to 10).
pub fn validate_entry(r: RaftLogEntryRecord, lent: &[u8]) -> Result<(), Refusal>
    ensures { checked_of result ≡ first_of (form_rows (identity_of r.identity) (entry_kind_of r lent.now)) }
{
    if zero_configuration_replica(r.payload) {
        return Err(Refusal::ZeroConfigurationReplicaId);
    }
    if zero_version(r.payload) {
        return Err(Refusal::ZeroConfigurationVersion);
    }
    validate_entry_fields(r)?;
    if unfit(r.payload, lent) {
        return Err(Refusal::CommandUnfit);
    }
    Ok(())
}

// Whether the vote is present and zero (13).
pub fn zero_vote(h: HardState) -> bool
    ensures { result ≡ zero_vote (hard_state_of h) }
{
    h.voted_for == Some(ReplicaId(0))
}

// The form of a hard state (11 to 15).
pub fn validate_hard_state(r: RaftHardStateRecord) -> Result<(), Refusal>
    ensures { checked_of result ≡ first_of (form_rows (identity_of r.identity) (hard_state_kind_of r)) }
{
    if r.identity.raft_group_id.0 == 0 {
        return Err(Refusal::ZeroHardStateGroupId);
    }
    if r.identity.replica_id.0 == 0 {
        return Err(Refusal::ZeroHardStateReplicaId);
    }
    let h = r.hard_state;
    if zero_vote(h) {
        return Err(Refusal::ZeroVotedForReplicaId);
    }
    if r.format_version != RAFT_STABLE_STATE_RECORD_VERSION {
        return Err(Refusal::UnsupportedHardStateVersion);
    }
    if h.current_term == 0 {
        return Err(Refusal::ZeroCurrentTerm);
    }
    Ok(())
}

// The form of a pointer (16 to 22).
pub fn validate_pointer(r: RaftSnapshotPointerRecord) -> Result<(), Refusal>
    ensures { checked_of result ≡ first_of (form_rows (identity_of r.identity) (pointer_kind_of r)) }
{
    if r.identity.raft_group_id.0 == 0 {
        return Err(Refusal::ZeroSnapshotGroupId);
    }
    if r.identity.replica_id.0 == 0 {
        return Err(Refusal::ZeroSnapshotReplicaId);
    }
    if r.format_version != RAFT_SNAPSHOT_POINTER_RECORD_VERSION {
        return Err(Refusal::UnsupportedSnapshotVersion);
    }
    if r.snapshot_id == 0 {
        return Err(Refusal::ZeroSnapshotId);
    }
    if r.last_included_index == 0 {
        return Err(Refusal::InvalidSnapshotBoundary);
    }
    if r.last_included_term == 0 {
        return Err(Refusal::InvalidSnapshotBoundary);
    }
    if r.applied_index != r.last_included_index {
        return Err(Refusal::SnapshotAppliedIndexMismatch);
    }
    if r.size_bytes == 0 {
        return Err(Refusal::InvalidSnapshotFileMetadata);
    }
    Ok(())
}

// The form of a replica's record of any kind (3 to 22).
pub fn validate_form(kind: RaftWalRecord, lent: &[u8]) -> Result<(), Refusal>
    ensures { checked_of result ≡ first_of (form_rows (owner_of kind) (kind_of kind lent.now)) }
{
    match kind {
        RaftWalRecord::Entry(e) => validate_entry(e, lent),
        RaftWalRecord::HardState(h) => validate_hard_state(h),
        RaftWalRecord::SnapshotPointer(p) => validate_pointer(p),
    }
}

// What a hard state may not do to `old` (33 to 36). A vote may neither change nor go in one term.
fn hard_state_follows(old: HardState, received: HardState) -> Result<(), Refusal>
    ensures { checked_of result ≡ first_of (hard_state_successor_rows (hard_state_of received) (Some (hard_state_of old))) }
{
    if received.current_term < old.current_term {
        return Err(Refusal::TermRegression);
    }
    if received.commit < old.commit {
        return Err(Refusal::CommitRegression);
    }
    if received.current_term != old.current_term {
        return Ok(());
    }
    match (old.voted_for, received.voted_for) {
        (Some(_), None) => Err(Refusal::VoteClearedInTerm),
        (Some(kept), Some(given)) if kept != given => Err(Refusal::VoteChangedInTerm),
        _ => Ok(()),
    }
}

// What a hard state may not do to the one before it, if there is one (33 to 36).
pub fn hard_state_successor_rows(
    previous: Option<HardState>,
    received: HardState,
) -> Result<(), Refusal>
    ensures { checked_of result ≡ first_of (hard_state_successor_rows (hard_state_of received) (maybe_hard_state_of previous)) }
{
    let Some(old) = previous else {
        return Ok(());
    };
    hard_state_follows(old, received)
}

// A hard state after another, alone: no zero vote on either side (13), a term (15), then 33 to 36.
pub fn validate_hard_state_successor(
    previous: Option<HardState>,
    received: HardState,
) -> Result<(), Refusal>
    ensures { checked_of result ≡ validate_hard_state_successor (maybe_hard_state_of previous) (hard_state_of received) }
{
    if zero_vote(received) {
        return Err(Refusal::ZeroVotedForReplicaId);
    }
    if previous.is_some_and(zero_vote) {
        return Err(Refusal::ZeroVotedForReplicaId);
    }
    if received.current_term == 0 {
        return Err(Refusal::ZeroCurrentTerm);
    }
    hard_state_successor_rows(previous, received)
}

// A pointer's index is not below that of `old` (39); at the same index it is the same record (40).
fn pointer_follows(
    old: RaftSnapshotPointerRecord,
    next: RaftSnapshotPointerRecord,
) -> Result<(), Refusal>
    ensures { checked_of result ≡ validate_snapshot_successor (Some (pointer_record_of old)) (pointer_record_of next) }
{
    if next.last_included_index < old.last_included_index {
        return Err(Refusal::SnapshotIndexRegression);
    }
    if next.last_included_index != old.last_included_index {
        return Ok(());
    }
    if next != old {
        return Err(Refusal::ConflictingSnapshotPointer);
    }
    Ok(())
}

// A pointer after another, alone (39, 40).
pub fn validate_snapshot_successor(
    previous: Option<RaftSnapshotPointerRecord>,
    next: RaftSnapshotPointerRecord,
) -> Result<(), Refusal>
    ensures { checked_of result ≡ validate_snapshot_successor (maybe_pointer_of previous) (pointer_record_of next) }
{
    let Some(old) = previous else {
        return Ok(());
    };
    pointer_follows(old, next)
}
