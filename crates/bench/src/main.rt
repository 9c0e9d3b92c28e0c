// A journal of 4,096 records on six replicas, made by rule (scripts/benchmark.py writes the same as text), and observed again
// and again. Standard input has a mode and a digit N for 10 N rounds: '1 N' observes it in chunks and finishes, '2 N' by one call a
// record. It prints the count of scanned records, summed over the rounds.
#![tactic(auto)]

ghost use Rattle.std.specs.Prelude.{◌<◌};

use codec::{Checksum, RaftSnapshotPointerRecord, RaftWalRecord, WalRecord};
use ids::{Lsn, RaftReplicaIdentity};
use recovery::observing;
use std::io::Read;
use std::{array, io};
use storage::RecoveredRaftStorage;

// The last index of a replica, and the command of its last entry.
#[derive(Clone, Copy, Debug, PartialEq, Eq)]
struct Replica {
    last: u64,
    command: usize,
}

fn pointer(identity: RaftReplicaIdentity, index: u64) -> RaftWalRecord {
    RaftWalRecord::SnapshotPointer(RaftSnapshotPointerRecord {
        format_version: 1,
        identity,
        snapshot_id: 7,
        last_included_index: index,
        last_included_term: 1,
        applied_index: index,
        size_bytes: 77,
        rest: 5,
        checksum: Checksum {
            a: 1,
            b: 2,
            c: 3,
            d: 4,
        },
    })
}

// The number that is at least 1 and n less.
fn less(x: u64, n: u64) -> u64 {
    x.saturating_sub(n).max(1)
}

fn appends(k: usize) -> bool {
    k % 40 != 39 && k % 4 != 3 && k % 16 != 5
}

impl Replica {
    // What it is after its record k.
    fn after(self, k: usize) -> Replica {
        if appends(k) && self.last < 1000000 {
            return Replica {
                last: self.last + 1,
                command: k,
            };
        }
        self
    }

    // Its record k: of 40, the last is a pointer 5 below; of 4, the last is a hard state; of 16, one repeats the last entry; the
    // others append.
    fn record(self, identity: RaftReplicaIdentity, k: usize) -> RaftWalRecord {
        if k % 40 == 39 {
            return pointer(identity, less(self.last, 5));
        }
        if k % 4 == 3 {
            return bench_records::hard_state(identity, less(self.last, 1));
        }
        if k % 16 == 5 {
            return bench_records::entry(identity, self.last, self.command);
        }
        if self.last < 1000000 {
            return bench_records::entry(identity, self.last + 1, k);
        }
        bench_records::entry(identity, 1, k)
    }
}

// The journal's record i.
fn next_record(replicas: &mut [Replica; 6], i: usize) -> WalRecord
    requires { i < 4096 }
{
    let p = i % 6;
    let k = i / 6;
    let replica = replicas[p];
    replicas[p] = replica.after(k);
    WalRecord {
        lsn: Lsn(1 + i as u64),
        body: Some(replica.record(bench_records::identity(p), k)),
    }
}

// In chunks of 256 records, by number: each record follows from its own.
fn make_journal() -> [[WalRecord; 256]; 16] {
    let mut chunks = [[WalRecord::default(); 256]; 16];
    let mut replicas = [Replica {
        last: 0,
        command: 0,
    }; 6];
    for i in 0..4096 {
        chunks[i / 256][i % 256] = next_record(&mut replicas, i);
    }
    chunks
}

// A chunk by one call a record.
fn one_by_one(
    t: RecoveredRaftStorage,
    records: &[WalRecord; 256],
    lent: &[u8],
    store: &mut [u8],
) -> RecoveredRaftStorage {
    let mut s = t;
    for r in records {
        s = observing::observe_record(s, *r, lent, store).state;
    }
    s
}

// The count of scanned records when all chunks are observed, then finished.
fn scanned<F: Fn(RecoveredRaftStorage, &[WalRecord; 256], &mut [u8]) -> RecoveredRaftStorage>(
    observe: F,
    chunks: &[[WalRecord; 256]; 16],
    store: &mut [u8],
) -> u64
    requires { F.IsAlwaysCallable observe }
{
    store.fill(0);
    let mut t = RecoveredRaftStorage::fresh();
    for records in chunks {
        t = observe(t, records, store);
    }
    finishing::finish(t, store).state.scan.scanned_records
}

// The counts of all rounds, summed.
fn summed<F: Fn(RecoveredRaftStorage, &[WalRecord; 256], &mut [u8]) -> RecoveredRaftStorage>(
    observe: F,
    chunks: &[[WalRecord; 256]; 16],
    rounds: u64,
    store: &mut [u8],
) -> u64
    requires { F.IsAlwaysCallable observe }
{
    let mut sum: u64 = 0;
    for _ in 0..rounds {
        sum = bench_records::added(sum, scanned(&observe, chunks, store));
    }
    sum
}

fn main(rt: HostRuntime) -> io::Result<()> {
    let mut input = [0u8; 8];
    for (place, byte) in input.iter_mut().zip(rt.stdin().bytes()) {
        *place = byte?;
    }
    let lent: [u8; 8192] = array::from_fn(|i| (i % 251) as u8);
    let mut store = [0u8; 32768];
    let chunks = make_journal();
    let rounds = bench_records::rounds_of(input[2]);
    let sum = match input[0] {
        b'2' => summed(
            |t, records, store| one_by_one(t, records, &lent, store),
            &chunks,
            rounds,
            &mut store,
        ),
        _ => summed(
            |t, records, store| observing::observe_records(t, records, &lent, store).state,
            &chunks,
            rounds,
            &mut store,
        ),
    };
    rt.println(sum)
}
