// States that are odd and yet sound: none may be refused by 1. The first two are the states that the broken ones start from. Where what
// is odd is the second replica's, the records are of that one.
ghost use Rattle.std.specs.Prelude.{◌<◌};

use crate::text::Lines;
use crate::trying::odd;
use crate::{records, states, text};
use codec::RaftWalRecord;
use ids::Lsn;
use recovery::observing;
use storage::RecoveredRaftStorage;
use view::{Header, RecoveredRaftLogEntry};

// Another entry at a place; the first replica is asked.
fn entry(
    out: &mut Lines,
    name: &str,
    s: &RecoveredRaftStorage,
    store: &[u8; 32768],
    at: usize,
    e: RecoveredRaftLogEntry,
)
    requires { at < 512 }
{
    odd(out, name, &states::with_entry(s, at, e), store, 0);
}

// Another header for the first replica.
fn head(out: &mut Lines, name: &str, s: &RecoveredRaftStorage, store: &[u8; 32768], h: Header) {
    odd(out, name, &states::with_head(s, 0, h), store, 0);
}

// A boundary of the second replica, in a state that holds no byte.
fn bounded(out: &mut Lines, name: &str, blank: &[u8; 32768], index: u64, term: u64, len: usize) {
    odd(out, name, &states::bounded(index, term, len), blank, 1);
}

// States that hold no byte: a version of 0, and boundaries.
fn boundaries(out: &mut Lines, blank: &[u8; 32768]) {
    let t = states::with_entry(&states::bounded(5, 1, 1), 64, states::change(0));
    odd(out, "configuration-of-version-0", &t, blank, 1);
    bounded(out, "pointer-of-0-and-0", blank, 0, 0, 2);
    bounded(out, "0-entries-after-2^64-1", blank, u64::MAX, 1, 0);
    bounded(out, "1-entry-after-2^64-1", blank, u64::MAX, 1, 1);
    bounded(out, "1-entry-after-2^64-2", blank, u64::MAX - 1, 1, 1);
}

// A header that breaks every clause.
fn garbage_head() -> Header {
    let id = records::identity(0, 0);
    let vote = records::hard_state(id, 1, 0, 1);
    let mut h = Header::new(id).with_hard_state(vote.hard_state, Lsn(6));
    h.len = 99;
    h.progress = states::progress(7, 8, 9);
    states::with_lsns(h, u64::MAX)
}

// Garbage in unused heads, in unused entries of a held replica and in those of an unused one.
fn garbage(out: &mut Lines, s: &RecoveredRaftStorage, store: &[u8; 32768]) {
    let h = garbage_head();
    let e = states::entry(7, u64::MAX, 99);
    let heads = states::with_head(&states::with_head(s, 2, h), 7, h);
    odd(out, "garbage-in-unused-heads", &heads, store, 0);
    let entries = states::with_entry(&states::with_entry(s, 2, e), 127, e);
    odd(out, "garbage-in-unused-entries", &entries, store, 0);
    let all = states::with_entry(&states::with_entry(&heads, 128, e), 511, e);
    odd(out, "garbage-in-unused-blocks", &all, store, 0);
}

// All counts but one are used up. Of two foreign records one is taken: the count is then at its end, and finishing is refused too.
fn last_count(out: &mut Lines, s: &RecoveredRaftStorage, store: &[u8; 32768]) {
    let mut t = *s;
    t.scan.scanned_records = u64::MAX - 1;
    odd(out, "scanned-2^64-2", &t, store, 0);
    let mut copy = *store;
    let two = [records::record(11, None), records::record(12, None)];
    let done = observing::observe_records(t, &two, b"", &mut copy);
    let finished = finishing::finish(done.state, store);
    text::put(out, "odd scanned-2^64-2 chunk of 2 taken ");
    text::put_number(out, done.taken as u64);
    text::observed(out, " foreign ", "refused ", &done.answer);
    text::put(out, " then");
    text::answer(out, " finish ", "finished", "refused ", &finished.answer);
    text::put(out, "\n");
}

// The pointer that the second replica keeps names another replica, and comes again as its own: 40 compares the other fields.
fn pointer_again(out: &mut Lines, store: &[u8; 32768]) {
    let mut s = states::bounded(5, 2, 0);
    s.heads[1].snapshot = Some(records::pointer(records::identity(1, 1), 5, 2));
    let own = RaftWalRecord::SnapshotPointer(records::pointer(records::identity(2, 3), 5, 2));
    let mut copy = *store;
    let done = observing::observe_record(s, records::record(11, Some(own)), b"", &mut copy);
    text::put(out, "odd pointer-of-another-replica comes again as its own");
    text::observed(out, " pointer ", "refused ", &done.answer);
    text::put(out, "\n");
}

// All of them, from a state of two replicas and its store.
pub fn all(out: &mut Lines, s: &RecoveredRaftStorage, store: &[u8; 32768]) {
    let blank = [0u8; 32768];
    odd(out, "two-replicas", s, store, 0);
    odd(out, "nothing-scanned", &states::bare(), &blank, 1);
    entry(out, "falling-terms", s, store, 0, states::entry(9, 3, 5));
    entry(out, "entry-of-term-0", s, store, 0, states::entry(0, 3, 5));
    let h = s.heads[0];
    head(out, "commit-past-the-log", s, store, h.with_commit(100));
    boundaries(out, &blank);
    let lsns = states::with_lsns(h, 10);
    head(out, "pointer-lsn-without-a-pointer", s, store, lsns);
    pointer_again(out, &blank);
    garbage(out, s, store);
    last_count(out, s, store);
}
