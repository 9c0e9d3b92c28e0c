// Preparing a batch of a replica before it is written: tried on a copy of what is kept, which itself is never written.
#![tactic(auto)]

ghost use Rattle.std.specs.Prelude.{◌≡◌, [], ◌++◌, ◌+◌, ◌<◌, ◌≤◌, length};
ghost use Rattle.storage.specs.Model.{entries_in};
ghost use Rattle.preview.specs.Preview.{Leaves};
ghost use Rattle.persistence.specs.Tries.{Kept, ran_of, tried_on, TriedReached};
ghost use Rattle.persistence.specs.Answer.{record_with, entry_records, records_in, PreparesBatch};

use batches::{BatchEntry, RaftPersistenceBatch};
use codec::{
    HardState, RAFT_STABLE_STATE_RECORD_VERSION, RaftHardStateRecord, RaftSnapshotPointerRecord,
    RaftWalRecord,
};
use fixed_vec::{Blank, FixedVec};
use ids::{RaftReplicaIdentity, Refusal};
use preview::Preview;
use readers::{Own, SoundStorage};
use storage::RecoveredRaftStorage;
use view::RecoveredRaftLogEntry;

pub mod prepare;

// A record of the answer; its body is always a record of a Raft kind. (An Option, since a list without a heap asks for a blank one.)
#[derive(Clone, Copy, Debug, PartialEq, Eq, Default, Drop)]
pub struct PreparedRecord {
    pub body: Option<RaftWalRecord>,
}

impl Blank for PreparedRecord {
    ghost use Rattle.std.specs.Prelude.{None};

    ghost blank = { record { body = None } };

    fn blank() -> Self {
        PreparedRecord { body: None }
    }
}

// The records of a batch that may be written, in order: pointer, entries, hard state.
pub type PreparedBatch = FixedVec<PreparedRecord, 34>;

// The entries of replica place p, copied.
fn entries_at(state: RecoveredRaftStorage, p: usize) -> [RecoveredRaftLogEntry; 64]
    requires { p < 8 }
    ensures { result ≡ entries_in state p }
{
    let mut es = [state.entries[0]; 64];
    es.copy_from_slice(&state.entries[64 * p..64 * p + 64]);
    es
}

// The answer to a batch that was tried, and the preview that it left.
#[derive(Clone, Copy, Debug, PartialEq, Eq)]
pub struct TriedBatch {
    pub answer: Result<(), Refusal>,
    pub preview: Preview,
}

// A batch on what is kept of its replica, `own`: on copies of its entries and of its block.
pub fn try_batch(
    state: RecoveredRaftStorage,
    store: &[u8],
    own: Own,
    identity: RaftReplicaIdentity,
    batch: RaftPersistenceBatch,
    lent: &[u8],
) -> TriedBatch
    requires { Kept state store.now own }
    ensures { Leaves (ran_of result (tried_on state store.now identity batch.entry lent.now own).bytes) (tried_on state store.now identity batch.entry lent.now own)
        (TriedReached state store.now identity batch.entry lent.now own) }
{
    let mut preview = prepare::begin(own.head, entries_at(state, own.place));
    let at = 4096 * own.place;
    let mut block = [0u8; 4096];
    store::copy_in(&mut block, 0, &store[at..at + 64 * own.head.len]);
    let answer = prepare::prepare_on(&mut preview, identity, batch, &mut block, lent);
    TriedBatch { answer, preview }
}

fn record(body: RaftWalRecord) -> PreparedRecord
    ensures { result ≡ record_with body }
{
    PreparedRecord { body: Some(body) }
}

// The records of the entries, behind what there is.
fn put_entries(records: &mut PreparedBatch, entries: &[BatchEntry], identity: RaftReplicaIdentity)
    requires { length records.old.items + length entries.now ≤ 34 }
    ensures { records.new.items ≡ records.old.items ++ entry_records identity entries.now }
{
    for entry in entries {
        records.push(record(RaftWalRecord::Entry(entry.record(identity))));
    }
}

// The records of a batch that may be written.
#[tactic(auto, unfolding(crate::specs::Answer::records_in))]
fn records_of(identity: RaftReplicaIdentity, batch: RaftPersistenceBatch) -> PreparedBatch
    requires { length batch.entries.now ≤ 32 }
    ensures { result.items ≡ records_in identity batch.entry }
{
    let mut records = FixedVec::new();
    if let Some(p) = batch.snapshot {
        records.push(record(RaftWalRecord::SnapshotPointer(p)));
    }
    put_entries(&mut records, batch.entries, identity);
    if let Some(h) = batch.hard_state {
        records.push(record(RaftWalRecord::HardState(RaftHardStateRecord {
            format_version: RAFT_STABLE_STATE_RECORD_VERSION,
            identity,
            hard_state: h,
        })));
    }
    records
}

// A batch of a replica of a sound state, whose commands stand in the lent bytes: refused, or the records to write. An identity that
// is not held is tried against an empty replica. Identity, batch and lent bytes are the caller's three things, here and below, as
// document 01's call has them; as one they are no plainer.
pub fn prepare_sound(
    sound: &SoundStorage,
    identity: RaftReplicaIdentity,
    batch: RaftPersistenceBatch,
    lent: &[u8],
) -> Result<PreparedBatch, Refusal>
    ensures { PreparesBatch sound.now.state.now sound.now.store.now identity batch.entry lent.now result }
{
    let own = sound.own(identity);
    try_batch(*sound.state, sound.store, own, identity, batch, lent).answer?;
    Ok(records_of(identity, batch))
}

// A batch of a replica, whose commands stand in the lent bytes: refused, or the records to write. An identity that is not held is
// tried against an empty replica.
pub fn prepare_batch(
    state: RecoveredRaftStorage,
    store: &[u8],
    identity: RaftReplicaIdentity,
    batch: RaftPersistenceBatch,
    lent: &[u8],
) -> Result<PreparedBatch, Refusal>
    ensures { PreparesBatch state store.now identity batch.entry lent.now result }
{
    prepare_sound(&SoundStorage::new(&state, store)?, identity, batch, lent)
}
