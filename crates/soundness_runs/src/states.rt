// States made by hand, and what is changed in them.
ghost use Rattle.std.specs.Prelude.{◌<◌};

use crate::records;
use codec::ConfChangeKind;
use frontier::RaftProgress;
use ids::{Lsn, ReplicaId};
use storage::{RecoveredRaftStorage, Scan};
use view::{EntryPayload, Header, RecoveredRaftLogEntry};

pub fn with_head(s: &RecoveredRaftStorage, p: usize, h: Header) -> RecoveredRaftStorage
    requires { p < 8 }
{
    let mut t = *s;
    t.heads[p] = h;
    t
}

pub fn with_entry(
    s: &RecoveredRaftStorage,
    at: usize,
    e: RecoveredRaftLogEntry,
) -> RecoveredRaftStorage
    requires { at < 512 }
{
    let mut t = *s;
    t.entries[at] = e;
    t
}

pub fn progress(index: u64, term: u64, applied: u64) -> RaftProgress {
    RaftProgress {
        truncated_through_index: index,
        truncated_through_term: term,
        applied_index: applied,
    }
}

// All three LSNs that a header keeps.
pub fn with_lsns(h: Header, lsn: u64) -> Header {
    Header {
        last_replayed_lsn: Some(Lsn(lsn)),
        hard_state_lsn: Some(Lsn(lsn)),
        snapshot_pointer_lsn: Some(Lsn(lsn)),
        ..h
    }
}

pub fn entry(term: u64, lsn: u64, len: usize) -> RecoveredRaftLogEntry {
    RecoveredRaftLogEntry {
        term,
        lsn: Lsn(lsn),
        payload: EntryPayload::Normal { len },
    }
}

// A kept change of configuration.
pub fn change(version: u64) -> RecoveredRaftLogEntry {
    RecoveredRaftLogEntry {
        term: 1,
        lsn: Lsn(3),
        payload: EntryPayload::Configuration {
            kind: ConfChangeKind::PromoteLearner,
            expected_version: version,
            replica_id: ReplicaId(4),
        },
    }
}

// Replicas 1 1 and 2 3 that keep no LSN and hold no entry, nothing scanned.
pub fn bare() -> RecoveredRaftStorage {
    let mut s = RecoveredRaftStorage::fresh();
    s.heads[0] = Header::new(records::identity(1, 1));
    s.heads[1] = Header::new(records::identity(2, 3));
    s.held = 2;
    s
}

// The bare state, 7 scanned, the last at LSN 10, whose second replica has a boundary and holds `len` entries without bytes.
pub fn bounded(index: u64, term: u64, len: usize) -> RecoveredRaftStorage {
    let mut s = bare();
    let p = records::pointer(records::identity(2, 3), index, term);
    s.heads[1] = Header {
        len,
        ..s.heads[1].with_pointer(p, Lsn(9), 0)
    };
    s.entries[64] = entry(1, 10, 0);
    s.entries[65] = entry(1, 10, 0);
    s.scan = Scan {
        scanned_records: 7,
        last_scanned_lsn: Some(Lsn(10)),
    };
    s
}
