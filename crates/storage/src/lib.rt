// What is recovered of every replica: its log in place, its command bytes in a store that is lent beside it.
#![tactic(auto)]

ghost use Rattle.std.specs.Prelude.{◌≡◌, ◌≤◌, not};
ghost use Rattle.std.specs.List.{position_from};
ghost use Rattle.definition.specs.Records.{before};
ghost use Rattle.storage.specs.Model.{no_header, fresh_storage};
ghost use Rattle.storage.specs.Place.{owners_of, stands_at};
ghost use Rattle.storage.specs.Finding.{found_at};
ghost use Rattle.ids.specs.Identity.{identity_of};
ghost use Rattle.view.specs.Meaning.{no_entry, id_of};

use ids::{Lsn, RaftGroupId, RaftReplicaIdentity, ReplicaId};
use view::{EntryPayload, Header, RecoveredRaftLogEntry};

// How many records were scanned, and the last one's LSN.
#[derive(Clone, Copy, Debug, PartialEq, Eq)]
pub struct Scan {
    pub scanned_records: u64,
    pub last_scanned_lsn: Option<Lsn>,
}

// The replicas held, ordered places in arrays (document 01). Entry place q of replica place p is entries[64 * p + q]; its command's bytes
// are store[4096 * p + 64 * q ..], and 0 behind them. Where it is sound: the first `held` headers, at most 8, ascend strictly by identity,
// and no part of one is 0; no kept LSN exceeds scan's, and none is kept where that is none; fewer than 2^64 - 1 records were scanned;
// each byte of the store that is no held command's is 0. What stands in the other places says nothing.
#[derive(Clone, Copy, Debug, PartialEq, Eq)]
pub struct RecoveredRaftStorage {
    pub heads: [Header; 8],
    pub entries: [RecoveredRaftLogEntry; 512],
    pub held: usize,
    pub scan: Scan,
}

// The header of a place where no replica stands.
fn no_header() -> Header
    ensures { result ≡ no_header }
{
    Header::new(RaftReplicaIdentity {
        raft_group_id: RaftGroupId(0),
        replica_id: ReplicaId(0),
    })
}

// The entry of a place where none stands.
fn no_entry() -> RecoveredRaftLogEntry
    ensures { result ≡ no_entry }
{
    RecoveredRaftLogEntry {
        term: 0,
        lsn: Lsn::ZERO,
        payload: EntryPayload::Normal { len: 0 },
    }
}

// The first of the headers whose identity does not stand before another.
fn first_not_before(heads: &[Header], identity: RaftReplicaIdentity) -> Option<usize>
    ensures { result ≡ position_from (λ h. not (before (id_of h) (identity_of identity))) 0 heads.now }
{
    heads.iter().position(|head| identity <= head.identity)
}

impl RecoveredRaftStorage {
    // Nothing held, nothing scanned, every place blank.
    pub fn fresh() -> RecoveredRaftStorage
        ensures { result ≡ fresh_storage }
    {
        RecoveredRaftStorage {
            heads: [no_header(); 8],
            entries: [no_entry(); 512],
            held: 0,
            scan: Scan {
                scanned_records: 0,
                last_scanned_lsn: None,
            },
        }
    }

    // How many of the replicas held stand before an identity, up to the first that does not.
    fn stands_at(&self, identity: RaftReplicaIdentity) -> usize
        requires { self.now.held ≤ 8 }
        ensures { result ≡ stands_at (identity_of identity) self.now.held (owners_of self.now.heads) }
    {
        first_not_before(&self.heads[..self.held], identity).unwrap_or(self.held)
    }

    // Where an identity stands among the replicas held or, as the error, where it would be opened: the first place that it does
    // not follow. No binary search: what is found where the places do not ascend is said too.
    pub fn find(&self, identity: RaftReplicaIdentity) -> Result<usize, usize>
        requires { self.now.held ≤ 8 }
        ensures { result ≡ found_at self.now (identity_of identity) }
    {
        let p = self.stands_at(identity);
        if p < self.held && self.heads[p].identity == identity {
            return Ok(p);
        }
        Err(p)
    }
}
