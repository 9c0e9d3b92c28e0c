// Numbers that must not be taken for one another, a replica's identity, and document 01's refusals.
#![tactic(auto)]

ghost use Rattle.std.specs.Prelude.{◌≡◌};
ghost use Rattle.ids.specs.Refusal.{number_of};

// The place of a record in the journal.
#[derive(Clone, Copy, Debug, Default, PartialEq, Eq, PartialOrd, Ord, Hash)]
pub struct Lsn(pub u64);

impl Lsn {
    pub const ZERO: Lsn = Lsn(0);
}

// The number of a Raft group.
#[derive(Clone, Copy, Debug, PartialEq, Eq, PartialOrd, Ord, Hash)]
pub struct RaftGroupId(pub u64);

// The number of a replica in its group.
#[derive(Clone, Copy, Debug, PartialEq, Eq, PartialOrd, Ord, Hash)]
pub struct ReplicaId(pub u64);

// One replica of one group.
#[derive(Clone, Copy, Debug, PartialEq, Eq, PartialOrd, Ord, Hash)]
pub struct RaftReplicaIdentity {
    pub raft_group_id: RaftGroupId,
    pub replica_id: ReplicaId,
}

// Why a call is refused, in document 01's order; `number` gives its number there.
#[derive(Clone, Copy, Debug, PartialEq, Eq)]
pub enum Refusal {
    // 1. The state is not sound, or the store's length is not 32,768 (added).
    Unsound,
    // 2. LSN at or below the last scanned.
    NonIncreasingWalLsn,
    // 3. Entry: configuration replica zero.
    ZeroConfigurationReplicaId,
    // 4. Entry: configuration version zero.
    ZeroConfigurationVersion,
    // 5. Entry: format version not 1.
    UnsupportedEntryVersion,
    // 6. Entry: group zero.
    ZeroRaftGroupId,
    // 7. Entry: replica zero.
    ZeroReplicaId,
    // 8. Entry: index zero.
    ZeroLogIndex,
    // 9. Entry: term zero.
    ZeroTerm,
    // 10. Entry: command over 64 bytes, or not wholly inside the bytes lent with it (added).
    CommandUnfit,
    // 11. Hard state: group zero.
    ZeroHardStateGroupId,
    // 12. Hard state: replica zero.
    ZeroHardStateReplicaId,
    // 13. Hard state: vote present and zero.
    ZeroVotedForReplicaId,
    // 14. Hard state: format version not 1.
    UnsupportedHardStateVersion,
    // 15. Hard state: term zero.
    ZeroCurrentTerm,
    // 16. Pointer: group zero.
    ZeroSnapshotGroupId,
    // 17. Pointer: replica zero.
    ZeroSnapshotReplicaId,
    // 18. Pointer: format version not 1.
    UnsupportedSnapshotVersion,
    // 19. Pointer: snapshot ID zero.
    ZeroSnapshotId,
    // 20. Pointer: index or term zero.
    InvalidSnapshotBoundary,
    // 21. Pointer: applied differs from index.
    SnapshotAppliedIndexMismatch,
    // 22. Pointer: size zero.
    InvalidSnapshotFileMetadata,
    // 23. Replica not held and 8 are (added).
    TooManyReplicas,
    // 24. Entry at or below the truncation index.
    EntryAtOrBelowTruncation,
    // 25. Entry at or below the boundary (batch only).
    EntryAtOrBelowSnapshot,
    // 26. Held index, same term, different payload.
    ConflictingPayload,
    // 27. Held index, different term, at or below the view's commit.
    CommittedPrefixOverwrite,
    // 28. No entries, no boundary, index not 1.
    MissingLogPrefix,
    // 29 is reserved: no journal and no batch meets it (retired).
    // 30. Index neither held nor the last plus 1 (none is 0).
    NonContiguousAppend,
    // 31. Append or replacement: term below the predecessor's (entry or boundary).
    LogTermRegression,
    // 32. An append with 64 retained (added).
    LogFull,
    // 33. Hard-state term below the previous.
    TermRegression,
    // 34. Hard-state commit below the previous.
    CommitRegression,
    // 35. Vote changed in the term.
    VoteChangedInTerm,
    // 36. Vote cleared in the term.
    VoteClearedInTerm,
    // 37. Commit beyond the last index (none is 0).
    HardStateCommitBeyondRecoveredLog,
    // 38. Commit below the view's.
    ViewCommitRegression,
    // 39. Pointer index below the previous pointer's.
    SnapshotIndexRegression,
    // 40. Same index, any other field different.
    ConflictingSnapshotPointer,
    // 41. Higher index, term below the boundary's.
    SnapshotTermRegression,
    // 42. Entry at that index has another term.
    SnapshotBoundaryTermMismatch,
    // 43. Batch over 32 entries (added).
    TooManyEntries,
    // 44. Pointer without hard state.
    SnapshotWithoutHardState,
    // 45. Pointer of another identity.
    SnapshotIdentityMismatch,
    // 46. Preview LSN would pass 2^64 - 1.
    PreviewLsnExhausted,
    // 47. Hard-state term below the pointer's.
    HardStateBeforeSnapshotTerm,
    // 48. Hard-state commit below the pointer's index.
    HardStateBeforeSnapshotCommit,
    // 49. Hard-state commit beyond the preview's last index.
    CommitBeyondLog,
    // 50. Batch's hard-state term, else the kept one, else 0, raised to the preview's boundary term, is below the preview's largest term.
    HardStateBeforeLogTerm,
    // 51. Progress: index zero, term not.
    TermWithoutBoundary,
    // 52. Progress: term zero, index not.
    BoundaryWithoutTerm,
    // 53. Progress: index above applied.
    TruncationBeyondApplied,
    // 54. Truncation index fell.
    TruncationRegression,
    // 55. Applied index fell.
    AppliedRegression,
    // 56. Same index, term changed.
    BoundaryTermChanged,
}

impl Refusal {
    // Document 01's number. A table, as in the definition: with `self as u64` the proof did not close (56 cases, stopped after ten minutes).
    pub fn number(self) -> u64
        ensures { result ≡ number_of self }
    {
        match self {
            Refusal::Unsound => 1,
            Refusal::NonIncreasingWalLsn => 2,
            Refusal::ZeroConfigurationReplicaId => 3,
            Refusal::ZeroConfigurationVersion => 4,
            Refusal::UnsupportedEntryVersion => 5,
            Refusal::ZeroRaftGroupId => 6,
            Refusal::ZeroReplicaId => 7,
            Refusal::ZeroLogIndex => 8,
            Refusal::ZeroTerm => 9,
            Refusal::CommandUnfit => 10,
            Refusal::ZeroHardStateGroupId => 11,
            Refusal::ZeroHardStateReplicaId => 12,
            Refusal::ZeroVotedForReplicaId => 13,
            Refusal::UnsupportedHardStateVersion => 14,
            Refusal::ZeroCurrentTerm => 15,
            Refusal::ZeroSnapshotGroupId => 16,
            Refusal::ZeroSnapshotReplicaId => 17,
            Refusal::UnsupportedSnapshotVersion => 18,
            Refusal::ZeroSnapshotId => 19,
            Refusal::InvalidSnapshotBoundary => 20,
            Refusal::SnapshotAppliedIndexMismatch => 21,
            Refusal::InvalidSnapshotFileMetadata => 22,
            Refusal::TooManyReplicas => 23,
            Refusal::EntryAtOrBelowTruncation => 24,
            Refusal::EntryAtOrBelowSnapshot => 25,
            Refusal::ConflictingPayload => 26,
            Refusal::CommittedPrefixOverwrite => 27,
            Refusal::MissingLogPrefix => 28,
            Refusal::NonContiguousAppend => 30,
            Refusal::LogTermRegression => 31,
            Refusal::LogFull => 32,
            Refusal::TermRegression => 33,
            Refusal::CommitRegression => 34,
            Refusal::VoteChangedInTerm => 35,
            Refusal::VoteClearedInTerm => 36,
            Refusal::HardStateCommitBeyondRecoveredLog => 37,
            Refusal::ViewCommitRegression => 38,
            Refusal::SnapshotIndexRegression => 39,
            Refusal::ConflictingSnapshotPointer => 40,
            Refusal::SnapshotTermRegression => 41,
            Refusal::SnapshotBoundaryTermMismatch => 42,
            Refusal::TooManyEntries => 43,
            Refusal::SnapshotWithoutHardState => 44,
            Refusal::SnapshotIdentityMismatch => 45,
            Refusal::PreviewLsnExhausted => 46,
            Refusal::HardStateBeforeSnapshotTerm => 47,
            Refusal::HardStateBeforeSnapshotCommit => 48,
            Refusal::CommitBeyondLog => 49,
            Refusal::HardStateBeforeLogTerm => 50,
            Refusal::TermWithoutBoundary => 51,
            Refusal::BoundaryWithoutTerm => 52,
            Refusal::TruncationBeyondApplied => 53,
            Refusal::TruncationRegression => 54,
            Refusal::AppliedRegression => 55,
            Refusal::BoundaryTermChanged => 56,
        }
    }
}
