// Records: the seven that leave a small state with two replicas, and what others are made of.
use codec::{
    Checksum, DurableRaftEntryPayload, HardState, RaftHardStateRecord, RaftLogEntryRecord,
    RaftSnapshotPointerRecord, RaftWalRecord, WalRecord,
};
use ids::{Lsn, RaftGroupId, RaftReplicaIdentity, ReplicaId};

pub fn identity(group: u64, replica: u64) -> RaftReplicaIdentity {
    RaftReplicaIdentity {
        raft_group_id: RaftGroupId(group),
        replica_id: ReplicaId(replica),
    }
}

// A record; one of no Raft kind has no body.
pub fn record(lsn: u64, body: Option<RaftWalRecord>) -> WalRecord {
    WalRecord {
        lsn: Lsn(lsn),
        body,
    }
}

fn entry(
    owner: RaftReplicaIdentity,
    index: u64,
    term: u64,
    place: usize,
    len: usize,
) -> RaftWalRecord {
    RaftWalRecord::Entry(RaftLogEntryRecord {
        format_version: 1,
        identity: owner,
        index,
        term,
        payload: DurableRaftEntryPayload::Normal { place, len },
    })
}

pub fn hard_state(
    owner: RaftReplicaIdentity,
    term: u64,
    vote: u64,
    commit: u64,
) -> RaftHardStateRecord {
    RaftHardStateRecord {
        format_version: 1,
        identity: owner,
        hard_state: HardState {
            current_term: term,
            voted_for: Some(ReplicaId(vote)),
            commit,
        },
    }
}

pub fn pointer(owner: RaftReplicaIdentity, index: u64, term: u64) -> RaftSnapshotPointerRecord {
    RaftSnapshotPointerRecord {
        format_version: 1,
        identity: owner,
        snapshot_id: 4,
        last_included_index: index,
        last_included_term: term,
        applied_index: index,
        size_bytes: 9,
        rest: 2,
        checksum: Checksum {
            a: 506097522914230528,
            b: 1,
            c: u64::MAX,
            d: 81985529216486895,
        },
    }
}

// Replica 1 1 with entries 1 and 2 (5 and 64 bytes) and a hard state; replica 2 3 with pointer 5 of term 2, entries 6 and 7 (6 and
// 7 bytes) and a hard state.
pub fn two_replicas() -> [WalRecord; 7] {
    let one = identity(1, 1);
    let two = identity(2, 3);
    [
        record(3, Some(entry(one, 1, 1, 1, 5))),
        record(4, Some(entry(one, 2, 1, 2, 64))),
        record(6, Some(RaftWalRecord::HardState(hard_state(one, 1, 2, 1)))),
        record(7, Some(RaftWalRecord::SnapshotPointer(pointer(two, 5, 2)))),
        record(8, Some(entry(two, 6, 2, 3, 6))),
        record(9, Some(entry(two, 7, 3, 4, 7))),
        record(10, Some(RaftWalRecord::HardState(hard_state(two, 3, 3, 6)))),
    ]
}

// The bytes that the command of a replica's next entry stands in.
pub const LENT: [u8; 7] = *b"stop 17";
