// What is read of a recovered state and the store that is lent beside it. `SoundStorage` is where they are tested, once for many
// readers. The functions of the same names test them each time: where they are not sound each refuses by 1, and no command is shown.
#![tactic(auto)]

ghost use Rattle.std.specs.Prelude.{◌≡◌, ◌<◌, ◌≤◌, true, if◌then◌else◌, length, get_or, slice_get, Option, None, Some, option_map, Ok, Err};
ghost use Rattle.definition.specs.Table.{◌=?◌, ◌<?◌};
ghost use Rattle.definition.specs.Log.{count, is_empty, first_index, last_index, snapshot_boundary, first_retained_lsn, at};
ghost use Rattle.definition.specs.Recovery.{place_of, replica_of, replica_at, least, minimum_recovery_lsn};
ghost use Rattle.ids.specs.Identity.{identity_of};
ghost use Rattle.ids.specs.Refusal.{result_of};
ghost use Rattle.view.specs.Meaning.{lsn_of, no_entry, view_of, held_of};
ghost use Rattle.storage.specs.Model.{head_at, entries_in, bytes_in};
ghost use Rattle.readers.specs.Own.{Passes, own_in, own_for, minimum_of};
ghost use Rattle.readers.specs.Reads.{Reads, ReadsReplica, ReadsPlace, Shows, read_entry_of, place_in, entry_with, cell_for, cell_in, command_at};

use ids::{Lsn, RaftReplicaIdentity, Refusal};
use storage::RecoveredRaftStorage;
use view::{Header, RecoveredRaftLogEntry};

// A replica's place and its header.
#[derive(Clone, Copy, Debug, PartialEq, Eq)]
pub struct Own {
    pub place: usize,
    pub head: Header,
}

// Whether they are sound. The lengths of the state's arrays are compared that the proof knows them, of a state by reference.
pub fn passes(state: &RecoveredRaftStorage, store: &[u8]) -> bool
    ensures { Passes state.now store.now result }
{
    let heads = &state.heads[..];
    let entries = &state.entries[..];
    heads.len() == 8 && entries.len() == 512 && soundness::is_sound(state, store)
}

// Where a replica stands, and its header; an empty one where it is not held. Of a state that need not be sound: what is asked of it
// (`held ≤ 8`) stands in the clause.
pub fn own_of(state: &RecoveredRaftStorage, identity: RaftReplicaIdentity) -> Own
    requires { state.now.held ≤ 8 }
    ensures { result ≡ own_for state.now identity }
{
    match state.find(identity) {
        Ok(place) => Own {
            place,
            head: state.heads[place],
        },
        Err(_) => Own {
            place: 0,
            head: Header::new(identity),
        },
    }
}

// The lesser of the LSNs that are present.
fn lesser(a: Option<Lsn>, b: Option<Lsn>) -> Option<Lsn>
    ensures { lsn_of result ≡ least (lsn_of a) (lsn_of b) }
{
    match (a, b) {
        (Some(x), Some(y)) => Some(x.min(y)),
        (None, one) | (one, None) => one,
    }
}

// The least LSN from which a replica can be recovered: of its pointer, its hard state and its first entry, which is `first`.
pub fn minimum_of(head: Header, first: RecoveredRaftLogEntry) -> Option<Lsn>
    ensures { lsn_of result ≡ minimum_of head first }
{
    let retained = head.first_retained_lsn(first);
    lesser(
        head.snapshot_pointer_lsn,
        lesser(head.hard_state_lsn, retained),
    )
}

// A recovered state and the store that is lent beside it, which are sound. The store has a lifetime of its own: a command that is
// read of it may outlive the borrow of the state.
#[derive(Clone, Copy)]
pub struct SoundStorage<'a, 's> {
    pub state: &'a RecoveredRaftStorage,
    pub store: &'s [u8],
    pub ghost sound: { Passes state.now store.now true },
}

impl<'a, 's> SoundStorage<'a, 's> {
    ghost use Rattle.readers.specs.Sound.{opened_of, opens, state_in, log_for};

    // A state and its store, refused by 1 where they are not sound.
    pub fn new(
        state: &'a RecoveredRaftStorage,
        store: &'s [u8],
    ) -> Result<SoundStorage<'a, 's>, Refusal>
        ensures { opened_of result ≡ opens state.now store.now }
    {
        if !passes(state, store) {
            return Err(Refusal::Unsound);
        }
        Ok(SoundStorage { state, store })
    }

    // Where a replica stands, and its header; an empty one where it is not held.
    #[tactic(auto, using(crate::proofs::Answers::few_held))]
    pub fn own(&self, identity: RaftReplicaIdentity) -> Own
        ensures { result ≡ own_for self.now.state.now identity }
    {
        own_of(self.state, identity)
    }

    // The entry at place q of replica place p.
    #[tactic(auto, using(crate::proofs::Held::kept_is))]
    fn kept_at(&self, p: usize, q: usize) -> RecoveredRaftLogEntry
        requires { (p < 8) × (q < 64) }
        ensures { result ≡ get_or (entries_in self.now.state.now p) q no_entry }
    {
        self.state.entries[64 * p + q]
    }

    // How many replicas are held.
    #[tactic(auto, using(crate::proofs::Readings::held_is))]
    pub fn len(&self) -> usize
        ensures { result ≡ length (state_in self.now).replicas }
    {
        self.state.held
    }

    // Whether no replica is held.
    pub fn is_empty(&self) -> bool
        ensures { result ≡ (length (state_in self.now).replicas =? 0) }
    {
        self.len() == 0
    }

    // How many records were scanned.
    #[tactic(auto, unfolding(storage::specs::Meaning::meaning))]
    pub fn scanned_records(&self) -> u64
        ensures { result ≡ (state_in self.now).scanned_records }
    {
        self.state.scan.scanned_records
    }

    // The LSN of the last scanned record.
    #[tactic(auto, unfolding(storage::specs::Meaning::meaning))]
    pub fn last_scanned_lsn(&self) -> Option<Lsn>
        ensures { lsn_of result ≡ (state_in self.now).last_scanned_lsn }
    {
        self.state.scan.last_scanned_lsn
    }

    // The header of a replica; an empty one where it is not held. A pointer is kept with an identity that no meaning tells: the
    // header is the one that stands at its replica's place.
    #[tactic(auto, using(crate::proofs::Owns::owns, crate::proofs::Readings::replica_read, crate::proofs::Held::held_head))]
    pub fn replica(&self, identity: RaftReplicaIdentity) -> Header
        ensures means { view_of result (entries_in self.now.state.now (place_in self.now.state.now self.now.store.now (identity_of identity))) (bytes_in self.now.store.now (place_in self.now.state.now self.now.store.now (identity_of identity))) ≡ log_for self.now identity }
        ensures own { result ≡ (own_in self.now.state.now identity (place_of (identity_of identity) (state_in self.now).replicas)).head }
    {
        let Own { head, .. } = self.own(identity);
        head
    }

    // The header at a replica place; none past the last held.
    #[tactic(auto, using(crate::proofs::Answers::few_held, crate::proofs::Readings::past_is, crate::proofs::Readings::place_is_held))]
    pub fn replica_at(&self, place: usize) -> Option<Header>
        ensures means { option_map (λ h. held_of h (entries_in self.now.state.now place) (bytes_in self.now.store.now place)) result ≡ replica_at place (state_in self.now) }
        ensures own { result ≡ (if place <? self.now.state.now.held then Some (head_at self.now.state.now place) else None) }
    {
        if self.state.held <= place {
            return None;
        }
        Some(self.state.heads[place])
    }

    // How many entries a replica holds.
    pub fn log_len(&self, identity: RaftReplicaIdentity) -> usize
        ensures { result ≡ count (log_for self.now identity) }
    {
        self.own(identity).head.len()
    }

    // Whether a replica holds no entry.
    pub fn log_is_empty(&self, identity: RaftReplicaIdentity) -> bool
        ensures { result ≡ is_empty (log_for self.now identity) }
    {
        self.own(identity).head.is_empty()
    }

    // The index of a replica's first entry.
    pub fn first_index(&self, identity: RaftReplicaIdentity) -> Option<u64>
        ensures { result ≡ first_index (log_for self.now identity) }
    {
        self.own(identity).head.first_index()
    }

    // The index of a replica's last entry or, without entries, of its boundary.
    pub fn last_index(&self, identity: RaftReplicaIdentity) -> Option<u64>
        ensures { result ≡ last_index (log_for self.now identity) }
    {
        self.own(identity).head.last_index()
    }

    // Index and term of a replica's boundary.
    pub fn snapshot_boundary(&self, identity: RaftReplicaIdentity) -> Option<(u64, u64)>
        ensures { result ≡ snapshot_boundary (log_for self.now identity) }
    {
        self.own(identity).head.snapshot_boundary()
    }

    // The commit of a replica's view.
    pub fn committed_index(&self, identity: RaftReplicaIdentity) -> u64
        ensures { result ≡ (log_for self.now identity).committed_index }
    {
        self.own(identity).head.committed_index()
    }

    // The LSN of the last record that changed a replica's log.
    #[tactic(auto, using(crate::proofs::Held::held_replayed))]
    pub fn last_replayed_lsn(&self, identity: RaftReplicaIdentity) -> Option<Lsn>
        ensures { lsn_of result ≡ (log_for self.now identity).last_replayed_lsn }
    {
        self.own(identity).head.last_replayed_lsn()
    }

    // The LSN of a replica's first entry.
    #[tactic(auto, using(crate::proofs::Held::held_low, crate::proofs::Held::held_retained))]
    pub fn first_retained_lsn(&self, identity: RaftReplicaIdentity) -> Option<Lsn>
        ensures { lsn_of result ≡ first_retained_lsn (log_for self.now identity) }
    {
        let own = self.own(identity);
        own.head.first_retained_lsn(self.kept_at(own.place, 0))
    }

    // The least LSN from which a replica can be recovered.
    #[tactic(auto, using(crate::proofs::Held::held_low, crate::proofs::Held::held_minimum))]
    pub fn minimum_recovery_lsn(&self, identity: RaftReplicaIdentity) -> Option<Lsn>
        ensures { lsn_of result ≡ minimum_recovery_lsn (log_for self.now identity) }
    {
        let own = self.own(identity);
        minimum_of(own.head, self.kept_at(own.place, 0))
    }

    // The entry that a replica holds at an index.
    pub fn entry(&self, identity: RaftReplicaIdentity, index: u64) -> Option<RecoveredRaftLogEntry>
        ensures { option_map (λ e. entry_with e (cell_for self.now.state.now self.now.store.now (identity_of identity) index)) result ≡ at (log_for self.now identity) index }
    {
        let own = self.own(identity);
        let q = own.head.place_of(index)?;
        Some(self.kept_at(own.place, q))
    }

    // The entry that a replica holds at an entry place; none past the last held.
    pub fn entry_at(
        &self,
        identity: RaftReplicaIdentity,
        place: usize,
    ) -> Option<RecoveredRaftLogEntry>
        ensures { option_map (λ e. entry_with e (cell_in self.now.state.now self.now.store.now (identity_of identity) place)) result ≡ slice_get (log_for self.now identity).entries place }
    {
        let own = self.own(identity);
        if own.head.len <= place {
            return None;
        }
        Some(self.kept_at(own.place, place))
    }

    // The command that a replica holds at an index, a part of the store; empty where there is none.
    pub fn command(&self, identity: RaftReplicaIdentity, index: u64) -> &'s [u8]
        ensures { result.now ≡ command_at (identity_of identity) index (state_in self.now) }
    {
        let own = self.own(identity);
        let Some(q) = own.head.place_of(index) else {
            return &self.store[..0];
        };
        let kept = self.kept_at(own.place, q);
        view::command(self.store, 64 * own.place + q, kept.payload)
    }
}

// How many replicas are held.
pub fn len(state: RecoveredRaftStorage, store: &[u8]) -> Result<usize, Refusal>
    ensures { Reads state store.now (λ s. length s.replicas) (result_of (λ n. n) result) }
{
    Ok(SoundStorage::new(&state, store)?.len())
}

// Whether no replica is held.
pub fn is_empty(state: RecoveredRaftStorage, store: &[u8]) -> Result<bool, Refusal>
    ensures { Reads state store.now (λ s. length s.replicas =? 0) (result_of (λ b. b) result) }
{
    Ok(SoundStorage::new(&state, store)?.is_empty())
}

// How many records were scanned.
pub fn scanned_records(state: RecoveredRaftStorage, store: &[u8]) -> Result<u64, Refusal>
    ensures { Reads state store.now (λ s. s.scanned_records) (result_of (λ n. n) result) }
{
    Ok(SoundStorage::new(&state, store)?.scanned_records())
}

// The LSN of the last scanned record.
pub fn last_scanned_lsn(state: RecoveredRaftStorage, store: &[u8]) -> Result<Option<Lsn>, Refusal>
    ensures { Reads state store.now (λ s. s.last_scanned_lsn) (result_of lsn_of result) }
{
    Ok(SoundStorage::new(&state, store)?.last_scanned_lsn())
}

// The header of a replica; an empty one where it is not held.
pub fn replica(
    state: RecoveredRaftStorage,
    store: &[u8],
    identity: RaftReplicaIdentity,
) -> Result<Header, Refusal>
    ensures { ReadsReplica state store.now identity result }
{
    Ok(SoundStorage::new(&state, store)?.replica(identity))
}

// The header at a replica place; none past the last held.
pub fn replica_at(
    state: RecoveredRaftStorage,
    store: &[u8],
    place: usize,
) -> Result<Option<Header>, Refusal>
    ensures { ReadsPlace state store.now place result }
{
    Ok(SoundStorage::new(&state, store)?.replica_at(place))
}

// How many entries a replica holds.
pub fn log_len(
    state: RecoveredRaftStorage,
    store: &[u8],
    identity: RaftReplicaIdentity,
) -> Result<usize, Refusal>
    ensures { Reads state store.now (λ s. count (replica_of (identity_of identity) s)) (result_of (λ n. n) result) }
{
    Ok(SoundStorage::new(&state, store)?.log_len(identity))
}

// Whether a replica holds no entry.
pub fn log_is_empty(
    state: RecoveredRaftStorage,
    store: &[u8],
    identity: RaftReplicaIdentity,
) -> Result<bool, Refusal>
    ensures { Reads state store.now (λ s. is_empty (replica_of (identity_of identity) s)) (result_of (λ b. b) result) }
{
    Ok(SoundStorage::new(&state, store)?.log_is_empty(identity))
}

// The index of a replica's first entry.
pub fn first_index(
    state: RecoveredRaftStorage,
    store: &[u8],
    identity: RaftReplicaIdentity,
) -> Result<Option<u64>, Refusal>
    ensures { Reads state store.now (λ s. first_index (replica_of (identity_of identity) s)) (result_of (λ n. n) result) }
{
    Ok(SoundStorage::new(&state, store)?.first_index(identity))
}

// The index of a replica's last entry or, without entries, of its boundary.
pub fn last_index(
    state: RecoveredRaftStorage,
    store: &[u8],
    identity: RaftReplicaIdentity,
) -> Result<Option<u64>, Refusal>
    ensures { Reads state store.now (λ s. last_index (replica_of (identity_of identity) s)) (result_of (λ n. n) result) }
{
    Ok(SoundStorage::new(&state, store)?.last_index(identity))
}

// Index and term of a replica's boundary.
pub fn snapshot_boundary(
    state: RecoveredRaftStorage,
    store: &[u8],
    identity: RaftReplicaIdentity,
) -> Result<Option<(u64, u64)>, Refusal>
    ensures { Reads state store.now (λ s. snapshot_boundary (replica_of (identity_of identity) s)) (result_of (λ b. b) result) }
{
    Ok(SoundStorage::new(&state, store)?.snapshot_boundary(identity))
}

// The commit of a replica's view.
pub fn committed_index(
    state: RecoveredRaftStorage,
    store: &[u8],
    identity: RaftReplicaIdentity,
) -> Result<u64, Refusal>
    ensures { Reads state store.now (λ s. (replica_of (identity_of identity) s).committed_index) (result_of (λ n. n) result) }
{
    Ok(SoundStorage::new(&state, store)?.committed_index(identity))
}

// The LSN of the last record that changed a replica's log.
pub fn last_replayed_lsn(
    state: RecoveredRaftStorage,
    store: &[u8],
    identity: RaftReplicaIdentity,
) -> Result<Option<Lsn>, Refusal>
    ensures { Reads state store.now (λ s. (replica_of (identity_of identity) s).last_replayed_lsn) (result_of lsn_of result) }
{
    Ok(SoundStorage::new(&state, store)?.last_replayed_lsn(identity))
}

// The LSN of a replica's first entry.
pub fn first_retained_lsn(
    state: RecoveredRaftStorage,
    store: &[u8],
    identity: RaftReplicaIdentity,
) -> Result<Option<Lsn>, Refusal>
    ensures { Reads state store.now (λ s. first_retained_lsn (replica_of (identity_of identity) s)) (result_of lsn_of result) }
{
    Ok(SoundStorage::new(&state, store)?.first_retained_lsn(identity))
}

// The least LSN from which a replica can be recovered.
pub fn minimum_recovery_lsn(
    state: RecoveredRaftStorage,
    store: &[u8],
    identity: RaftReplicaIdentity,
) -> Result<Option<Lsn>, Refusal>
    ensures { Reads state store.now (λ s. minimum_recovery_lsn (replica_of (identity_of identity) s)) (result_of lsn_of result) }
{
    Ok(SoundStorage::new(&state, store)?.minimum_recovery_lsn(identity))
}

// The entry that a replica holds at an index.
pub fn entry(
    state: RecoveredRaftStorage,
    store: &[u8],
    identity: RaftReplicaIdentity,
    index: u64,
) -> Result<Option<RecoveredRaftLogEntry>, Refusal>
    ensures { Reads state store.now (λ s. at (replica_of (identity_of identity) s) index) (read_entry_of (cell_for state store.now (identity_of identity) index) result) }
{
    Ok(SoundStorage::new(&state, store)?.entry(identity, index))
}

// The entry that a replica holds at an entry place; none past the last held.
pub fn entry_at(
    state: RecoveredRaftStorage,
    store: &[u8],
    identity: RaftReplicaIdentity,
    place: usize,
) -> Result<Option<RecoveredRaftLogEntry>, Refusal>
    ensures { Reads state store.now (λ s. slice_get (replica_of (identity_of identity) s).entries place) (read_entry_of (cell_in state store.now (identity_of identity) place) result) }
{
    Ok(SoundStorage::new(&state, store)?.entry_at(identity, place))
}

// The command that a replica holds at an index, a part of the store; empty where there is none.
pub fn command(
    state: RecoveredRaftStorage,
    store: &[u8],
    identity: RaftReplicaIdentity,
    index: u64,
) -> &[u8]
    ensures { Shows state store.now (identity_of identity) index result.now }
{
    match SoundStorage::new(&state, store) {
        Ok(sound) => sound.command(identity, index),
        Err(_) => &store[..0],
    }
}
