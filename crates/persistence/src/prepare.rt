// Preparing a batch on one replica: its pointer, its entries, its hard state, and the terms of the whole.
ghost use Rattle.ids.specs.Refusal.{checked_of};
ghost use Rattle.std.specs.Prelude.{◌≡◌, List, ℕ, ◌≤◌};
ghost use Rattle.definition.specs.Table.{first_of, or_zero};
ghost use Rattle.ids.specs.Identity.{identity_of};
ghost use Rattle.view.specs.Meaning.{lsn_of};
ghost use Rattle.view.specs.Model.{maximum_term};
ghost use Rattle.batches.specs.Checks.{term_rows};
ghost use Rattle.preview.specs.Preview.{ran_with, Leaves, Reached, Sits};
ghost use Rattle.persistence.specs.Prepare.{held_at, moved_down, point_ran, harden_ran, point_in, harden_in, lastly_ran, entries_ran, pointed_ran, beginning, prepare_ran, PointedReached, BatchReached};

use batches::{RaftPersistenceBatch, batch, hard_state, pointer};
use codec::{HardState, RaftSnapshotPointerRecord};
use ids::{Lsn, RaftReplicaIdentity, Refusal};
use preview::Preview;
use view::{Header, RecoveredRaftLogEntry};

// The term that a preview holds at an index.
fn held_at(preview: Preview, index: u64) -> Option<u64>
    ensures { result ≡ held_at preview index }
{
    let e = preview.entries[replay::look(preview.head, index)];
    replay::held_term(preview.head, e, index)
}

// The first k entries go, and the others move down.
fn move_entries(preview: &mut Preview, k: usize)
    requires { (k ≤ preview.old.head.len) × (preview.old.head.len ≤ 64) }
    ensures { preview.new ≡ moved_down preview.old k }
{
    preview.entries.copy_within(k..preview.head.len, 0);
}

// The pointer of a batch: all its rows, then the entries that it covers go, in the block too. It takes the next LSN.
pub fn point(
    preview: &mut Preview,
    identity: RaftReplicaIdentity,
    p: RaftSnapshotPointerRecord,
    block: &mut [u8],
) -> Result<(), Refusal>
    requires { Sits preview.old block.old }
    ensures { ran_with result preview.new block.new ≡ point_ran (identity_of identity) preview.old p block.old }
{
    let head = preview.head;
    let held = held_at(*preview, p.last_included_index);
    pointer::check_pointer(identity, head, preview.lsn, held, p)?;
    let lsn = preview.lsn + 1;
    let k = head.covered_by(p.last_included_index);
    store::drop_cells(block, 0, k);
    move_entries(preview, k);
    preview.head = head.with_pointer(p, Lsn(lsn), k);
    preview.lsn = lsn;
    Ok(())
}

// The hard state of a batch: 33 to 36 look at the one kept before the batch. No LSN is counted for it.
pub fn harden(
    preview: &mut Preview,
    kept: Option<HardState>,
    snapshot: Option<RaftSnapshotPointerRecord>,
    h: HardState,
) -> Result<(), Refusal>
    ensures { (cs : List ℕ) → ran_with result preview.new cs ≡ harden_ran kept snapshot h preview.old cs }
{
    let head = preview.head;
    let last = head.last();
    hard_state::check_hard_state(kept, snapshot, last, h)?;
    preview.head = head.with_hard_at(Some(h), head.hard_state_lsn);
    Ok(())
}

// The terms of the whole (50).
pub fn conclude(
    preview: Preview,
    hard_state: Option<HardState>,
    kept: Option<HardState>,
) -> Result<(), Refusal>
    ensures { checked_of result ≡ first_of (term_rows hard_state kept preview.head.snapshot_term (maximum_term preview.head preview.entries)) }
{
    let largest = preview.head.maximum_term(&preview.entries);
    hard_state::check_terms(hard_state, kept, preview.head.snapshot_term, largest)
}

// The pointer of a batch, if it has one.
fn point_batch(
    preview: &mut Preview,
    identity: RaftReplicaIdentity,
    snapshot: Option<RaftSnapshotPointerRecord>,
    block: &mut [u8],
) -> Result<(), Refusal>
    requires { Sits preview.old block.old }
    ensures { ran_with result preview.new block.new ≡ point_in (identity_of identity) preview.old snapshot block.old }
{
    let Some(p) = snapshot else {
        return Ok(());
    };
    point(preview, identity, p, block)
}

// The hard state of a batch, if it has one.
fn harden_batch(
    preview: &mut Preview,
    kept: Option<HardState>,
    snapshot: Option<RaftSnapshotPointerRecord>,
    hard_state: Option<HardState>,
) -> Result<(), Refusal>
    ensures { (cs : List ℕ) → ran_with result preview.new cs ≡ harden_in kept snapshot hard_state preview.old cs }
{
    let Some(h) = hard_state else {
        return Ok(());
    };
    harden(preview, kept, snapshot, h)
}

// The hard state, then the terms.
fn lastly(
    preview: &mut Preview,
    snapshot: Option<RaftSnapshotPointerRecord>,
    hard_state: Option<HardState>,
    kept: Option<HardState>,
) -> Result<(), Refusal>
    ensures { (cs : List ℕ) → ran_with result preview.new cs ≡ lastly_ran snapshot hard_state kept preview.old cs }
{
    harden_batch(preview, kept, snapshot, hard_state)?;
    conclude(*preview, hard_state, kept)
}

// The entries, then the hard state and the terms.
fn supply_batch(
    preview: &mut Preview,
    identity: RaftReplicaIdentity,
    batch: RaftPersistenceBatch,
    kept: Option<HardState>,
    block: &mut [u8],
    lent: &[u8],
) -> Result<(), Refusal>
    requires { Sits preview.old block.old }
    ensures { Leaves (ran_with result preview.new block.new) (entries_ran identity batch.entry kept lent.now preview.old block.old)
        (Reached identity batch.entry.entries.now lent.now preview.old block.old) }
{
    preview::extend(preview, identity, batch.entries, block, lent)?;
    lastly(preview, batch.snapshot, batch.hard_state, kept)
}

// The pointer, then all the rest.
fn apply_batch(
    preview: &mut Preview,
    identity: RaftReplicaIdentity,
    batch: RaftPersistenceBatch,
    kept: Option<HardState>,
    block: &mut [u8],
    lent: &[u8],
) -> Result<(), Refusal>
    requires { Sits preview.old block.old }
    ensures { Leaves (ran_with result preview.new block.new) (pointed_ran identity batch.entry kept lent.now preview.old block.old)
        (PointedReached identity batch.entry lent.now preview.old batch.entry.snapshot block.old) }
{
    point_batch(preview, identity, batch.snapshot, block)?;
    supply_batch(preview, identity, batch, kept, block, lent)
}

// An LSN as a number, none is 0.
fn number_of(lsn: Option<Lsn>) -> u64
    ensures { result ≡ or_zero (λ t. t) (lsn_of lsn) }
{
    lsn.map_or(0, |lsn| lsn.0)
}

// The preview of what is kept of a replica: it begins at the last replayed LSN.
pub fn begin(head: Header, entries: [RecoveredRaftLogEntry; 64]) -> Preview
    ensures { result ≡ beginning head entries }
{
    Preview {
        head,
        entries,
        lsn: number_of(head.last_replayed_lsn),
    }
}

// A batch on a preview: the batch as a whole, then its pointer, its entries, its hard state and the terms. The block is a copy of the
// replica's, which is written.
pub fn prepare_on(
    preview: &mut Preview,
    identity: RaftReplicaIdentity,
    batch: RaftPersistenceBatch,
    block: &mut [u8],
    lent: &[u8],
) -> Result<(), Refusal>
    requires { Sits preview.old block.old }
    ensures { Leaves (ran_with result preview.new block.new) (prepare_ran identity batch.entry lent.now preview.old block.old)
        (BatchReached identity batch.entry lent.now preview.old block.old) }
{
    batch::check_batch(identity, batch)?;
    let kept = preview.head.hard_state;
    apply_batch(preview, identity, batch, kept, block, lent)
}
