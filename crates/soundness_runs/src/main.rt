// States made by hand, sound and not, through the library: a record of each kind, finishing, a batch and a reading. None of the odd ones
// may be refused by 1, and each broken clause of soundness is refused by 1 each time, with state and store as they were. And how many
// records are taken of a list.
#![tactic(auto)]

mod broken;
mod odd;
mod records;
mod states;
mod text;
mod trying;

use recovery::observing;
use std::process::ExitCode;
use storage::RecoveredRaftStorage;
use text::Lines;

// How many records are taken of a list of `count`, at most 300, of no Raft kind, with rising LSNs.
fn taken_of(count: usize) -> usize {
    let mut store = [0u8; 32768];
    let s = RecoveredRaftStorage::fresh();
    let mut all = [records::record(0, None); 300];
    for i in 0..300 {
        all[i] = records::record(i as u64, None);
    }
    observing::observe_records(s, &all[..count.min(300)], b"", &mut store).taken
}

// A line: what the list is called, its count, and how many records of `given` are taken.
fn put_taken(out: &mut Lines, list: &str, count: usize, given: usize) {
    text::put(out, list);
    text::put_number(out, count as u64);
    text::put(out, " taken ");
    text::put_number(out, taken_of(given) as u64);
    text::put(out, "\n");
}

// A line for each count. A chunk is at most 256 records of those asked for, as journals are read; a list is taken whole.
fn chunk_sizes(out: &mut Lines) {
    for count in [0, 1, 255, 256, 257, usize::MAX] {
        put_taken(out, "chunk ", count, count.min(256));
    }
    for count in [257, 300] {
        put_taken(out, "list ", count, count);
    }
}

// A small state with two replicas, and the odd and broken ones made from it.
fn states_by_hand(out: &mut Lines, lent: &[u8]) {
    let mut store = [0u8; 32768];
    let s = RecoveredRaftStorage::fresh();
    let done = observing::observe_records(s, &records::two_replicas(), lent, &mut store);
    odd::all(out, &done.state, &store);
    broken::all(out, &done.state, &store);
}

fn main(rt: HostRuntime) -> ExitCode {
    let mut out = Lines::new();
    chunk_sizes(&mut out);
    states_by_hand(
        &mut out,
        b"0123456789ABCDEFGHIJKLMNOPQRSTUVWXYZabcdefghijklmnopqrstuvwxyz-+*/.,:;!?",
    );
    streams::end(rt, streams::write(&mut streams::stdout(rt), out.as_slice()))
}
