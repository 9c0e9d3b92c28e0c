// A state made by hand is tried with a record of each kind, finished, asked to prepare a batch and read, each time as it stands, and
// the answers are printed.
ghost use Rattle.std.specs.Prelude.{◌<◌, ◌≤◌, length};

use crate::text::Lines;
use crate::{records, text};
use batches::{BatchEntry, RaftPersistenceBatch};
use codec::{DurableRaftEntryPayload, RaftWalRecord};
use recovery::observing;
use storage::RecoveredRaftStorage;
use view::Header;

// The answer to a record at the last LSN, on a copy of the store, and whether state and store stayed as they were.
fn try_record(
    out: &mut Lines,
    asked: &str,
    refused: &str,
    s: &RecoveredRaftStorage,
    store: &[u8],
    body: Option<RaftWalRecord>,
) -> bool
    requires { length store.now ≤ 32768 }
{
    let mut bytes = [0u8; 32768];
    let copy = &mut bytes[..store.len()];
    copy.copy_from_slice(store);
    let r = records::record(u64::MAX, body);
    let done = observing::observe_record(*s, r, &records::LENT, copy);
    let kept = done.state == *s && &*copy == store;
    text::observed(out, asked, refused, &done.answer);
    kept
}

// What the replica with this header may have next, in term 9: the entry behind its last one, or at 2^64 - 1.
fn next_entry(h: Header) -> BatchEntry {
    BatchEntry {
        index: h.last().saturating_add(1),
        term: 9,
        payload: DurableRaftEntryPayload::Normal { place: 0, len: 7 },
    }
}

// The answers to records, with `refused` in front of the number of a refusal, and whether state and store stayed as they were: to a
// foreign one, the next entry, a hard state that commits what the view does, and a pointer at that entry's index.
fn try_records(
    out: &mut Lines,
    refused: &str,
    s: &RecoveredRaftStorage,
    store: &[u8],
    h: Header,
) -> bool
    requires { length store.now ≤ 32768 }
{
    let next = next_entry(h);
    let entry = RaftWalRecord::Entry(next.record(h.identity));
    let vote = records::hard_state(h.identity, 9, 2, h.committed_index);
    let at = records::pointer(h.identity, next.index, 9);
    let foreign = try_record(out, " foreign ", refused, s, store, None);
    let entry = try_record(out, " entry ", refused, s, store, Some(entry));
    let vote = Some(RaftWalRecord::HardState(vote));
    let hard_state = try_record(out, " hard-state ", refused, s, store, vote);
    let at = Some(RaftWalRecord::SnapshotPointer(at));
    let pointer = try_record(out, " pointer ", refused, s, store, at);
    foreign && entry && hard_state && pointer
}

// The answers to finishing, to a batch of the next entry and that hard state, and to a reading, and whether finishing left the state as
// it was.
fn try_calls(
    out: &mut Lines,
    refused: &str,
    s: &RecoveredRaftStorage,
    store: &[u8],
    h: Header,
) -> bool {
    let finished = finishing::finish(*s, store);
    text::answer(out, " finish ", "finished", refused, &finished.answer);
    let vote = records::hard_state(h.identity, 9, 2, h.committed_index);
    let batch = RaftPersistenceBatch {
        snapshot: None,
        entries: &[next_entry(h)],
        hard_state: Some(vote.hard_state),
    };
    let prepared = persistence::prepare_batch(*s, store, h.identity, batch, &records::LENT);
    text::answer(out, " batch ", "prepared", refused, &prepared);
    let least = readers::minimum_recovery_lsn(*s, store, h.identity);
    match least {
        Ok(Some(lsn)) => {
            text::put(out, " minimum ");
            text::put_number(out, lsn.0);
        }
        _ => text::answer(out, " minimum ", "none", refused, &least),
    }
    finished.state == *s
}

// A state that has to be refused by 1.
pub fn broken(out: &mut Lines, name: &str, s: &RecoveredRaftStorage, store: &[u8])
    requires { length store.now ≤ 32768 }
{
    text::put(out, "broken ");
    text::put(out, name);
    let unchanged = try_records(out, "", s, store, s.heads[0]);
    let kept = try_calls(out, "", s, store, s.heads[0]) && unchanged;
    let sound = soundness::is_sound(s, store);
    text::put(out, if kept { " kept yes" } else { " kept no" });
    text::put_sound(out, sound);
}

// A state that is sound, whose replica at place p is asked: of what is refused the line says so.
pub fn odd(out: &mut Lines, name: &str, s: &RecoveredRaftStorage, store: &[u8], p: usize)
    requires { (p < 8) × (length store.now ≤ 32768) }
{
    text::put(out, "odd ");
    text::put(out, name);
    try_records(out, "refused ", s, store, s.heads[p]);
    try_calls(out, "refused ", s, store, s.heads[p]);
    let sound = soundness::is_sound(s, store);
    text::put_sound(out, sound);
}
