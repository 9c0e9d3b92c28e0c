// Observing: records of a journal, one or a chunk of them, each decided on small values and written in place.
ghost use Rattle.std.specs.Prelude.{◌≡◌, ◌<◌, List, [], ℕ, length};
ghost use Rattle.codec.specs.declared.RaftWalRecord.TheVariants.{Entry, HardState, SnapshotPointer};
ghost use Rattle.ids.specs.Identity.{identity_of};
ghost use Rattle.ids.specs.Refusal.{result_of};
ghost use Rattle.storage.specs.Finding.{found_at};
ghost use Rattle.storage.specs.Meaning.{Linked};
ghost use Rattle.routing.specs.Admits.{index_in};
ghost use Rattle.routing.specs.Observe.{stepped};
ghost use Rattle.routing.proofs.Ready.{Ready};
ghost use Rattle.recovery.specs.Runs.{Runs, Observing};
ghost use Rattle.recovery.specs.Steps.{settled, Settling, placed_by};
ghost use Rattle.replay.specs.Plan.{answer_of, identity_in};

use codec::{
    RaftHardStateRecord, RaftLogEntryRecord, RaftSnapshotPointerRecord, RaftWalRecord, WalRecord,
};
use ids::{Lsn, Refusal};
use replay::Observation;
use routing::Admission;
use storage::RecoveredRaftStorage;

// How many records of a chunk were taken, the answer to the last one that was observed (a refusal where one ended it), and the
// state then.
#[derive(Clone, Copy, Debug, PartialEq, Eq)]
pub struct ObservedChunk {
    pub taken: usize,
    pub answer: Result<Observation, Refusal>,
    pub state: RecoveredRaftStorage,
}

// The answer, and the state after it.
#[derive(Clone, Copy, Debug, PartialEq, Eq)]
pub struct Observed {
    pub answer: Result<Observation, Refusal>,
    pub state: RecoveredRaftStorage,
}

// The place of a record's replica. One that is not held is refused where 8 are (23); else the record is tried on an empty replica, and a
// place is opened, whether it is taken or not.
fn place_of(
    t: &mut RecoveredRaftStorage,
    store: &mut [u8],
    kind: RaftWalRecord,
) -> Result<usize, Refusal>
    requires { Linked t.old store.old }
    ensures { record { place = result_of (λ n. n) result; state = t.new; store = store.new } ≡ placed_by (found_at t.old (identity_of (identity_in kind))) t.old store.old kind }
{
    let identity = replay::owner(kind);
    match t.find(identity) {
        Ok(p) => Ok(p),
        Err(_) if 8 <= t.held => Err(Refusal::TooManyReplicas),
        Err(p) => {
            let tried = replay::on_empty(kind);
            placing::open_place(t, store, p, identity);
            tried?;
            Ok(p)
        }
    }
}

// An entry, at its replica's place.
fn observe_entry(
    t: &mut RecoveredRaftStorage,
    store: &mut [u8],
    p: usize,
    r: RaftLogEntryRecord,
    lsn: Lsn,
    lent: &[u8],
) -> Result<Observation, Refusal>
    requires { Settling t.old store.old p (Entry r) lent.now }
    ensures { settled t.old store.old p (Entry r) lsn lent.now ≡ record { answer = answer_of result; state = t.new; store = store.new } }
{
    let head = t.heads[p];
    let q = 64 * p + replay::look(head, r.index);
    let before = 64 * p + replay::look_before(head, r.index);
    let e = t.entries[q];
    let b = t.entries[before];
    let at = 4096 * p;
    let outcome = replay::decide(head, e, b, r, &store[at..at + 4096], lent)?;
    let len = replay::len_after(head, r.index, outcome);
    t.heads[p] = head.with_entry(len, lsn);
    let block = &mut store[at..at + 4096];
    t.entries[q] = replay::write_entry(head, e, r, lsn, block, lent, outcome);
    Ok(replay::observation_of(outcome))
}

// A hard state, at its replica's place: it changes the header alone, whatever the store.
fn observe_hard_state(
    t: &mut RecoveredRaftStorage,
    p: usize,
    r: RaftHardStateRecord,
    lsn: Lsn,
) -> Result<Observation, Refusal>
    requires { p < 8 }
    ensures { (st lent : List ℕ) → length st ≡ 32768 → settled t.old st p (HardState r) lsn lent ≡ record { answer = answer_of result; state = t.new; store = st } }
{
    let head = t.heads[p];
    view::decide_hard_state(head, r.hard_state)?;
    t.heads[p] = head.with_hard_state(r.hard_state, lsn);
    Ok(Observation::HardStateKept)
}

// A pointer, at its replica's place: the entries that it covers go.
fn observe_pointer(
    t: &mut RecoveredRaftStorage,
    store: &mut [u8],
    p: usize,
    pointer: RaftSnapshotPointerRecord,
    lsn: Lsn,
) -> Result<Observation, Refusal>
    requires { Settling t.old store.old p (SnapshotPointer pointer) [] }
    ensures { settled t.old store.old p (SnapshotPointer pointer) lsn [] ≡ record { answer = answer_of result; state = t.new; store = store.new } }
{
    let head = t.heads[p];
    let q = 64 * p + replay::look(head, pointer.last_included_index);
    let at = 4096 * p;
    let block = &mut store[at..at + 4096];
    let after = replay::install_snapshot(head, t.entries[q], pointer, lsn, block)?;
    t.heads[p] = after;
    let dropped = head.len - after.len;
    if 0 < dropped {
        let from = 64 * p + dropped;
        t.entries.copy_within(from..from + after.len, 64 * p);
    }
    Ok(Observation::PointerKept(dropped))
}

// One record, on a state that is sound but for its count of scanned records.
fn observe_next(
    t: &mut RecoveredRaftStorage,
    store: &mut [u8],
    r: WalRecord,
    lent: &[u8],
) -> Result<Observation, Refusal>
    requires { Ready t.old store.old }
    ensures model { stepped t.old store.old r lent.now ≡ record { answer = answer_of result; state = t.new; store = store.new } }
    ensures fits { index_in r.body < 18446744073709551616 }
{
    match routing::admit(t.scan, r, lent) {
        Admission::Refused(why) => Err(why),
        Admission::Counted(next) => {
            t.scan = next;
            Ok(Observation::Counted)
        }
        Admission::Malformed(next, why) => {
            t.scan = next;
            Err(why)
        }
        Admission::Raft(next, kind) => {
            t.scan = next;
            let p = place_of(t, store, kind)?;
            match kind {
                RaftWalRecord::Entry(entry) => observe_entry(t, store, p, entry, r.lsn, lent),
                RaftWalRecord::HardState(hard) => observe_hard_state(t, p, hard, r.lsn),
                RaftWalRecord::SnapshotPointer(pointer) => {
                    observe_pointer(t, store, p, pointer, r.lsn)
                }
            }
        }
    }
}

// The records in turn, until the first refusal. Soundness is tested once: every step keeps it, but for the count of scanned records,
// which is tested before each.
pub fn observe_records(
    state: RecoveredRaftStorage,
    records: &[WalRecord],
    lent: &[u8],
    store: &mut [u8],
) -> ObservedChunk
    ensures { Runs state store.old records.now lent.now result store.new }
{
    let mut done = ObservedChunk {
        taken: 0,
        answer: Err(Refusal::Unsound),
        state,
    };
    if !soundness::is_sound(&done.state, store) {
        return done;
    }
    done.answer = Ok(Observation::Counted);
    for r in records {
        done.answer = observe_next(&mut done.state, store, *r, lent);
        if done.answer.is_err() {
            return done;
        }
        done.taken += 1;
    }
    done
}

// One record.
pub fn observe_record(
    state: RecoveredRaftStorage,
    r: WalRecord,
    lent: &[u8],
    store: &mut [u8],
) -> Observed
    ensures { Observing state store.old r lent.now result store.new }
{
    let mut done = Observed {
        answer: Err(Refusal::Unsound),
        state,
    };
    if soundness::is_sound(&done.state, store) {
        done.answer = observe_next(&mut done.state, store, r, lent);
    }
    done
}
