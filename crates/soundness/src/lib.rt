// The test of soundness: the headers, the held entries and their cells, and zeros in the rest of each block and of the store.
#![tactic(auto)]

ghost use Rattle.std.specs.Prelude.{◌≡◌, ◌*◌, ◌≤◌, length};
ghost use Rattle.view.specs.Meaning.{lsn_of};
ghost use Rattle.soundness.specs.Sound.{entries_ok, replica_ok, replicas_ok, heads_rise, sound_test};

use ids::Lsn;
use storage::RecoveredRaftStorage;
use view::{Header, RecoveredRaftLogEntry};

// Entries in a block, each in its cell, and zeros after them. By their places, here and below: entry, cell, header and block have one
// number, and zipped in chunks they are no plainer.
#[tactic(auto, using(crate::proofs::Step::entries_step, crate::proofs::Step::entries_end))]
fn entries_ok(last: Option<Lsn>, entries: &[RecoveredRaftLogEntry], block: &[u8]) -> bool
    requires { 64 * length entries.now ≤ length block.now }
    ensures { result ≡ entries_ok (lsn_of last) (length entries.now) entries.now block.now }
{
    for q in 0..entries.len() {
        if !clauses::entry_ok(last, entries[q], &block[64 * q..64 * q + 64]) {
            return false;
        }
    }
    store::is_zero(&block[64 * entries.len()..])
}

// A header, its 64 entry places and its block.
#[tactic(auto, using(crate::proofs::Step::entries_taken, crate::proofs::Test::head_short))]
fn replica_ok(
    last: Option<Lsn>,
    head: Header,
    entries: &[RecoveredRaftLogEntry],
    block: &[u8],
) -> bool
    requires { (length entries.now ≡ 64) × (length block.now ≡ 4096) }
    ensures { result ≡ replica_ok (lsn_of last) head entries.now block.now }
{
    clauses::head_ok(last, head) && entries_ok(last, &entries[..head.len], block)
}

// The replicas that are held, and zeros in the rest of the store.
#[tactic(auto, using(crate::proofs::Step::replicas_turn, crate::proofs::Step::replicas_end))]
fn replicas_ok(state: &RecoveredRaftStorage, store: &[u8]) -> bool
    requires { (state.now.held ≤ 8) × (length store.now ≡ 32768) }
    ensures { result ≡ replicas_ok (lsn_of state.now.scan.last_scanned_lsn) state.now.held state.now.heads state.now.entries store.now }
{
    let last = state.scan.last_scanned_lsn;
    for p in 0..state.held {
        let entries = &state.entries[64 * p..64 * p + 64];
        let block = &store[4096 * p..4096 * p + 4096];
        if !replica_ok(last, state.heads[p], entries, block) {
            return false;
        }
    }
    store::is_zero(&store[4096 * state.held..])
}

// Each of the headers held is before the next.
#[tactic(auto, using(crate::proofs::Step::heads_turn, crate::proofs::Step::heads_end))]
fn heads_rise(state: &RecoveredRaftStorage) -> bool
    requires { state.now.held ≤ 8 }
    ensures { result ≡ heads_rise state.now.held state.now.heads }
{
    for i in 1..state.held {
        if state.heads[i].identity <= state.heads[i - 1].identity {
            return false;
        }
    }
    true
}

// Whether a state and its store are sound.
#[tactic(auto, unfolding(crate::specs::Sound::sound_clauses))]
pub fn is_sound(state: &RecoveredRaftStorage, store: &[u8]) -> bool
    ensures { result ≡ sound_test state.now store.now }
{
    if store.len() != 32768 {
        return false;
    }
    if 8 < state.held {
        return false;
    }
    if u64::MAX <= state.scan.scanned_records {
        return false;
    }
    heads_rise(state) && replicas_ok(state, store)
}
