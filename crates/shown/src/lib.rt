// The command shown for a previewed index: a part of the store or of the bytes lent with the batch.
#![tactic(auto)]

ghost use Rattle.std.specs.Prelude.{◌≡◌, List, ℕ, ◌<◌, ◌≤◌, length, take, drop};
ghost use Rattle.definition.specs.Batch.{shown_bytes, supplied};
ghost use Rattle.batches.specs.Meaning.{entries_of};
ghost use Rattle.shown.specs.Shows.{shown_of, ShowsAt, address_at, shown_address, payload_shown, shown_by};

use batches::{BatchEntry, RaftPersistenceBatch};
use ids::RaftReplicaIdentity;
use preview::Preview;
use readers::{Own, SoundStorage};
use storage::RecoveredRaftStorage;
use view::EntryPayload;

// Where a shown command begins in the store or in the lent bytes, and its length.
#[derive(Clone, Copy, Debug, PartialEq, Eq)]
pub enum Shown {
    OfLog { place: usize, len: usize },
    OfBatch { place: usize, len: usize },
}

// Where the batch's latest entry of an index begins in the lent bytes, if the batch supplied the index.
#[tactic(auto, using(crate::proofs::Supplying::supply_turn), unfolding(batches::specs::Meaning::entries_of))]
fn latest(entries: &[BatchEntry], index: u64) -> Option<usize>
    ensures { (lent : List ℕ) → result ≡ supplied index (entries_of entries.now lent) }
{
    let mut found = None;
    for entry in entries {
        if entry.index == index {
            found = Some(entry.from());
        }
    }
    found
}

// A previewed payload: the batch's command where it supplied the index, else the store's, at the place that the log has for it.
fn show_payload(own: Own, from: Option<usize>, payload: EntryPayload, index: u64) -> Option<Shown>
    requires { own.place < 8 }
    ensures { result ≡ payload_shown own from payload index }
{
    let EntryPayload::Normal { len } = payload else {
        return None;
    };
    let Some(place) = from else {
        let place = 4096 * own.place + 64 * replay::look(own.head, index);
        return Some(Shown::OfLog { place, len });
    };
    Some(Shown::OfBatch { place, len })
}

// What a preview shows of an index: nothing where the index is not held.
fn show(own: Own, preview: Preview, entries: &[BatchEntry], index: u64) -> Option<Shown>
    requires { own.place < 8 }
    ensures { (lent : List ℕ) → result ≡ shown_by own preview (supplied index (entries_of entries.now lent)) index }
{
    let Some(_) = preview.head.place_of(index) else {
        return None;
    };
    let e = preview.entries[replay::look(preview.head, index)];
    show_payload(own, latest(entries, index), e.payload, index)
}

// A part of some bytes, as far as they reach.
pub fn part(bytes: &[u8], at: usize, len: usize) -> &[u8]
    ensures bytes { result.now ≡ take len (drop at bytes.now) }
    ensures short { length result.now ≤ len }
    ensures place { result.ref_ptr ≡ address_at bytes.entry.ref_ptr bytes.now at }
{
    let rest = &bytes[at.min(bytes.len())..];
    &rest[..len.min(rest.len())]
}

// Where the command of a previewed index stands, of a sound state: nothing where the preparation is refused, or the index holds no
// normal command.
pub fn previewed_sound(
    sound: &SoundStorage,
    identity: RaftReplicaIdentity,
    batch: RaftPersistenceBatch,
    lent: &[u8],
    index: u64,
) -> Option<Shown>
    ensures { ShowsAt sound.now.state.now sound.now.store.now identity batch.entry lent.now index (λ x. x) (shown_of result) }
{
    let own = sound.own(identity);
    let tried = persistence::try_batch(*sound.state, sound.store, own, identity, batch, lent);
    match tried.answer {
        Err(_) => None,
        Ok(()) => show(own, tried.preview, batch.entries, index),
    }
}

// Where the command of a previewed index stands: nothing where state and store are not sound, the preparation is refused, or the
// index holds no normal command.
pub fn previewed_at(
    state: RecoveredRaftStorage,
    store: &[u8],
    identity: RaftReplicaIdentity,
    batch: RaftPersistenceBatch,
    lent: &[u8],
    index: u64,
) -> Option<Shown>
    ensures { ShowsAt state store.now identity batch.entry lent.now index (λ x. x) (shown_of result) }
{
    let Ok(sound) = SoundStorage::new(&state, store) else {
        return None;
    };
    previewed_sound(&sound, identity, batch, lent, index)
}

// The command of a previewed index: a part of the store or of the lent bytes, an empty part of the store where there is none.
pub fn previewed_command<'a>(
    state: RecoveredRaftStorage,
    store: &'a [u8],
    identity: RaftReplicaIdentity,
    batch: RaftPersistenceBatch,
    lent: &'a [u8],
    index: u64,
) -> &'a [u8]
    ensures bytes { ShowsAt state store.now identity batch.entry lent.now index (shown_bytes store.now lent.now) result.now }
    ensures place { ShowsAt state store.now identity batch.entry lent.now index (shown_address store.entry.ref_ptr store.now lent.entry.ref_ptr lent.now) result.ref_ptr }
{
    match previewed_at(state, store, identity, batch, lent, index) {
        None => &store[..0],
        Some(Shown::OfLog { place, len }) => part(store, place, len),
        Some(Shown::OfBatch { place, len }) => part(lent, place, len),
    }
}
