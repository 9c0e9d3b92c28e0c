// The batch as a whole (6, 7, 43, 44).
ghost use Rattle.std.specs.Prelude.{◌≡◌, ◌&&◌, not, List, ℕ, ◌<◌};
ghost use Rattle.definition.specs.Table.{first_of, is_some};
ghost use Rattle.definition.specs.Log.{Log};
ghost use Rattle.definition.specs.Batch.{batch_rows};
ghost use Rattle.ids.specs.Identity.{identity_of};
ghost use Rattle.ids.specs.Refusal.{checked_of};
ghost use Rattle.codec.specs.Records.{maybe_hard_state_of, maybe_pointer_of};
ghost use Rattle.batches.specs.Meaning.{batch_of};

use crate::{MAX_BATCH_ENTRIES, RaftPersistenceBatch};
use codec::{HardState, RaftSnapshotPointerRecord};
use ids::{RaftReplicaIdentity, Refusal};

// Whether there is a pointer and no hard state.
fn pointer_alone(snapshot: Option<RaftSnapshotPointerRecord>, hard_state: Option<HardState>) -> bool
    ensures { result ≡ (is_some (maybe_pointer_of snapshot) && not (is_some (maybe_hard_state_of hard_state))) }
{
    snapshot.is_some() && hard_state.is_none()
}

// The batch as a whole: group or replica zero (6, 7), more than 32 entries (43), a pointer without hard state (44).
#[tactic(auto, unfolding(definition::specs::Batch::batch_rows))]
pub fn check_batch(
    identity: RaftReplicaIdentity,
    batch: RaftPersistenceBatch,
) -> Result<(), Refusal>
    ensures { (lent : List ℕ) (was : Log ℕ) → checked_of result ≡ first_of (batch_rows (identity_of identity) (batch_of batch.entry lent) was) }
{
    if identity.raft_group_id.0 == 0 {
        return Err(Refusal::ZeroRaftGroupId);
    }
    if identity.replica_id.0 == 0 {
        return Err(Refusal::ZeroReplicaId);
    }
    if MAX_BATCH_ENTRIES < batch.entries.len() {
        return Err(Refusal::TooManyEntries);
    }
    if pointer_alone(batch.snapshot, batch.hard_state) {
        return Err(Refusal::SnapshotWithoutHardState);
    }
    Ok(())
}
