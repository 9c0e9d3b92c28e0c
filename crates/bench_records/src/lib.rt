// What the benchmarks share: a record's parts, and numbers.
#![tactic(auto)]

ghost use Rattle.std.specs.Prelude.{◌≡◌, ◌<◌, ◌+◌, ◌-◌, ◌*◌, ◌/◌, ◌%◌, ◌^◌, ◌&&◌, cond, leb, ltb, Some};
ghost use Rattle.codec.specs.declared.DurableRaftEntryPayload.TheVariants.{Normal};
ghost use Rattle.codec.specs.declared.RaftWalRecord.TheVariants.{Entry, HardState as HardStateRecord};

use codec::{
    DurableRaftEntryPayload, HardState, RaftHardStateRecord, RaftLogEntryRecord, RaftWalRecord,
};
use ids::{RaftGroupId, RaftReplicaIdentity, ReplicaId};

// Of six replicas: three groups with two each.
pub fn identity(p: usize) -> RaftReplicaIdentity
    ensures { result ≡ record { raft_group_id = record { 0 = 1 + (p % 6) / 2 }; replica_id = record { 0 = 1 + p % 2 } } }
{
    let group = 1 + (p % 6) / 2;
    let replica = 1 + p % 2;
    RaftReplicaIdentity {
        raft_group_id: RaftGroupId(group as u64),
        replica_id: ReplicaId(replica as u64),
    }
}

// A command of 32 bytes, one of 256.
pub fn entry(identity: RaftReplicaIdentity, index: u64, command: usize) -> RaftWalRecord
    ensures { result ≡ Entry (record { format_version = 1; identity = identity; index = index; term = 1; payload = Normal (32 * (command % 256)) 32 }) }
{
    RaftWalRecord::Entry(RaftLogEntryRecord {
        format_version: 1,
        identity,
        index,
        term: 1,
        payload: DurableRaftEntryPayload::Normal {
            place: 32 * (command % 256),
            len: 32,
        },
    })
}

pub fn hard_state(identity: RaftReplicaIdentity, commit: u64) -> RaftWalRecord
    ensures { result ≡ HardStateRecord (record { format_version = 1; identity = identity; hard_state = record { current_term = 1; voted_for = Some (record { 0 = 3 }); commit = commit } }) }
{
    RaftWalRecord::HardState(RaftHardStateRecord {
        format_version: 1,
        identity,
        hard_state: HardState {
            current_term: 1,
            voted_for: Some(ReplicaId(3)),
            commit,
        },
    })
}

// Ten rounds for each that a digit ('0' is 48) says, none for any other byte.
pub fn rounds_of(digit: u8) -> u64
    ensures value { result ≡ cond (leb 48 digit && leb digit 57) (10 * (digit - 48)) 0 }
    ensures few { result < 100 }
{
    match digit {
        b'0'..=b'9' => 10 * u64::from(digit - b'0'),
        _ => 0,
    }
}

// A sum, as far as 64 bits go, and then the first.
pub fn added(a: u64, b: u64) -> u64
    ensures { result ≡ cond (ltb (a + b) (2 ^ 64)) (a + b) a }
{
    a.checked_add(b).unwrap_or(a)
}
