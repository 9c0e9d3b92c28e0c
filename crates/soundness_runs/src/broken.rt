// Each clause of soundness, broken alone. The states start from two replicas: 1 1 with entries 1 and 2 (5 and 64 bytes) and a hard
// state, 2 3 with pointer 5 of term 2, entries 6 and 7 (6 and 7 bytes) and a hard state; 7 scanned, the last LSN is 10.
ghost use Rattle.std.specs.Prelude.{◌<◌};

use crate::text::Lines;
use crate::trying::broken;
use crate::{records, states};
use frontier::RaftProgress;
use ids::Lsn;
use storage::RecoveredRaftStorage;
use view::{Header, RecoveredRaftLogEntry};

// One byte of the store is 1.
fn byte(out: &mut Lines, name: &str, s: &RecoveredRaftStorage, store: &[u8; 32768], at: usize)
    requires { at < 32768 }
{
    let mut poked = *store;
    poked[at] = 1;
    broken(out, name, s, &poked);
}

fn bytes(out: &mut Lines, s: &RecoveredRaftStorage, store: &[u8; 32768]) {
    broken(out, "store-one-byte-short", s, &store[..32767]);
    byte(out, "byte-after-a-command", s, store, 5);
    byte(out, "byte-at-a-cells-end", s, store, 4159);
    byte(out, "byte-after-the-held-commands", s, store, 128);
    byte(out, "byte-at-a-blocks-end", s, store, 8191);
    byte(out, "byte-in-an-unused-block", s, store, 8192);
    byte(out, "byte-at-the-stores-end", s, store, 32767);
}

// Another header at a replica's place.
fn head(
    out: &mut Lines,
    name: &str,
    s: &RecoveredRaftStorage,
    store: &[u8; 32768],
    p: usize,
    h: Header,
)
    requires { p < 8 }
{
    broken(out, name, &states::with_head(s, p, h), store);
}

// Another entry at a place.
fn entry(
    out: &mut Lines,
    name: &str,
    s: &RecoveredRaftStorage,
    store: &[u8; 32768],
    at: usize,
    e: RecoveredRaftLogEntry,
)
    requires { at < 512 }
{
    broken(out, name, &states::with_entry(s, at, e), store);
}

// Other counts of replicas and records.
fn counted(
    out: &mut Lines,
    name: &str,
    s: &RecoveredRaftStorage,
    store: &[u8; 32768],
    held: usize,
    records: u64,
) {
    let mut t = *s;
    t.held = held;
    t.scan.scanned_records = records;
    broken(out, name, &t, store);
}

fn counts(out: &mut Lines, s: &RecoveredRaftStorage, store: &[u8; 32768]) {
    let change = states::change(1);
    entry(out, "bytes-in-a-configurations-cell", s, store, 0, change);
    counted(out, "9-held", s, store, 9, s.scan.scanned_records);
    counted(out, "scanned-2^64-1", s, store, s.held, u64::MAX);
    let mut h = s.heads[0];
    h.len = 65;
    head(out, "65-entries", s, store, 0, h);
    let long = states::entry(1, 4, 65);
    entry(out, "command-of-65-bytes", s, store, 1, long);
}

// Another identity for the first replica.
fn first(
    out: &mut Lines,
    name: &str,
    s: &RecoveredRaftStorage,
    store: &[u8; 32768],
    group: u64,
    replica: u64,
) {
    let mut h = s.heads[0];
    h.identity = records::identity(group, replica);
    head(out, name, s, store, 0, h);
}

fn identities(out: &mut Lines, s: &RecoveredRaftStorage, store: &[u8; 32768]) {
    first(out, "equal-identities", s, store, 2, 3);
    first(out, "falling-by-replica", s, store, 2, 4);
    first(out, "falling-by-group", s, store, 3, 1);
    first(out, "zero-group", s, store, 0, 1);
    first(out, "zero-replica", s, store, 1, 0);
}

// Another pointer for the second replica.
fn pointed(
    out: &mut Lines,
    name: &str,
    s: &RecoveredRaftStorage,
    store: &[u8; 32768],
    index: u64,
    term: u64,
) {
    let h = s.heads[1];
    let p = records::pointer(h.identity, index, term);
    head(out, name, s, store, 1, h.with_pointer(p, Lsn(7), 0));
}

// Another boundary for a replica, with the progress that belongs to it.
fn bounded(
    out: &mut Lines,
    name: &str,
    s: &RecoveredRaftStorage,
    store: &[u8; 32768],
    p: usize,
    index: u64,
    term: u64,
)
    requires { p < 8 }
{
    let mut h = s.heads[p];
    h.snapshot_index = index;
    h.snapshot_term = term;
    h.progress = states::progress(index, term, index);
    head(out, name, s, store, p, h);
}

fn boundaries(out: &mut Lines, s: &RecoveredRaftStorage, store: &[u8; 32768]) {
    pointed(out, "boundary-without-term", s, store, 5, 0);
    pointed(out, "boundary-without-index", s, store, 0, 2);
    bounded(out, "boundary-not-the-pointers-index", s, store, 1, 4, 2);
    bounded(out, "boundary-not-the-pointers-term", s, store, 1, 5, 1);
    bounded(out, "no-boundary-with-a-pointer", s, store, 1, 0, 0);
    bounded(out, "boundary-without-a-pointer", s, store, 0, 5, 2);
}

// Another progress for the second replica.
fn progress(
    out: &mut Lines,
    name: &str,
    s: &RecoveredRaftStorage,
    store: &[u8; 32768],
    to: RaftProgress,
) {
    let mut h = s.heads[1];
    h.progress = to;
    head(out, name, s, store, 1, h);
}

fn progresses(out: &mut Lines, s: &RecoveredRaftStorage, store: &[u8; 32768]) {
    progress(out, "progress-index", s, store, states::progress(4, 2, 5));
    progress(out, "progress-term", s, store, states::progress(5, 1, 5));
    progress(out, "progress-applied", s, store, states::progress(5, 2, 6));
    let h = s.heads[1];
    let vote = records::hard_state(h.identity, 1, 0, 1);
    let zero = h.with_hard_state(vote.hard_state, Lsn(6));
    head(out, "zero-vote", s, store, 1, zero);
}

// One of the three LSNs that the second replica keeps, here with the header `h`; the names are of the pointer's, the hard state's and
// the last replayed.
fn lsns(
    out: &mut Lines,
    names: [&str; 3],
    s: &RecoveredRaftStorage,
    store: &[u8; 32768],
    h: Header,
    lsn: Lsn,
) {
    let mut pointer = h;
    pointer.snapshot_pointer_lsn = Some(lsn);
    head(out, names[0], s, store, 1, pointer);
    let mut hard = h;
    hard.hard_state_lsn = Some(lsn);
    head(out, names[1], s, store, 1, hard);
    let mut replayed = h;
    replayed.last_replayed_lsn = Some(lsn);
    head(out, names[2], s, store, 1, replayed);
}

// LSN zero is kept and nothing was scanned, in a state that keeps nothing else; no byte is held.
fn unscanned(out: &mut Lines, s: &RecoveredRaftStorage, blank: &[u8; 32768]) {
    let mut one = *s;
    one.heads[1].len = 1;
    entry(
        out,
        "entry-unscanned",
        &one,
        blank,
        64,
        states::entry(1, 0, 0),
    );
    let names = [
        "pointer-unscanned",
        "hard-state-unscanned",
        "last-replayed-unscanned",
    ];
    lsns(out, names, s, blank, s.heads[1], Lsn::ZERO);
}

// The last LSN is 10.
fn above(out: &mut Lines, s: &RecoveredRaftStorage, store: &[u8; 32768]) {
    entry(
        out,
        "entry-above-the-last",
        s,
        store,
        64,
        states::entry(2, 11, 6),
    );
    let names = [
        "pointer-above-the-last",
        "hard-state-above-the-last",
        "last-replayed-above-the-last",
    ];
    lsns(
        out,
        names,
        s,
        store,
        states::with_lsns(s.heads[1], 10),
        Lsn(11),
    );
}

// All of them, from a state of two replicas and its store.
pub fn all(out: &mut Lines, s: &RecoveredRaftStorage, store: &[u8; 32768]) {
    bytes(out, s, store);
    counts(out, s, store);
    identities(out, s, store);
    boundaries(out, s, store);
    progresses(out, s, store);
    above(out, s, store);
    let blank = [0u8; 32768];
    unscanned(out, &states::bare(), &blank);
    let before_last = states::bounded(u64::MAX - 1, 1, 2);
    broken(out, "2-entries-after-2^64-2", &before_last, &blank);
    let last = states::bounded(u64::MAX, 1, 2);
    broken(out, "2-entries-after-2^64-1", &last, &blank);
}
