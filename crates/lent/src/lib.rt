// What is lent: a replica's header, whose commit is advanced, and the entries of a batch as a list of records.
#![tactic(auto)]

ghost use Rattle.std.specs.Prelude.{◌≡◌, [], ◌∷◌};
ghost use Rattle.definition.specs.Table.{first_of};
ghost use Rattle.ids.specs.Refusal.{checked_of};
ghost use Rattle.lent.specs.Commit.{commit_row, advanced_to, AdvancesCommit};
ghost use Rattle.lent.specs.Batch.{PreparesList};

use batches::{BatchEntry, RaftPersistenceBatch};
use codec::{HardState, RaftSnapshotPointerRecord};
use ids::{RaftReplicaIdentity, Refusal};
use persistence::PreparedBatch;
use storage::RecoveredRaftStorage;
use view::Header;

// Whether a commit may be advanced to (38).
fn check_commit(head: Header, commit: u64) -> Result<(), Refusal>
    ensures { checked_of result ≡ first_of (commit_row head commit ∷ []) }
{
    if commit < head.committed_index {
        return Err(Refusal::ViewCommitRegression);
    }
    Ok(())
}

// The header with the commit advanced; as it was where that is refused.
fn advanced(head: Header, commit: u64) -> Header
    ensures { result ≡ advanced_to head commit }
{
    if commit < head.committed_index {
        return head;
    }
    head.with_commit(commit)
}

// The view's commit is advanced in the header that was lent.
pub fn advance_commit(header: &mut Header, commit: u64) -> Result<(), Refusal>
    ensures { AdvancesCommit header.old commit result header.new }
{
    let answer = check_commit(*header, commit);
    *header = advanced(*header, commit);
    answer
}

// A batch of a replica by its parts, its entries a lent list of records.
pub fn prepare_batch(
    state: RecoveredRaftStorage,
    store: &[u8],
    identity: RaftReplicaIdentity,
    snapshot: Option<RaftSnapshotPointerRecord>,
    entries: &[BatchEntry],
    hard_state: Option<HardState>,
    lent: &[u8],
) -> Result<PreparedBatch, Refusal>
    ensures { PreparesList state store.now identity snapshot entries.now hard_state lent.now result }
{
    let batch = RaftPersistenceBatch {
        snapshot,
        entries,
        hard_state,
    };
    persistence::prepare_batch(state, store, identity, batch, lent)
}
