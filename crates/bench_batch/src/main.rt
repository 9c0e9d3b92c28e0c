// A replica that holds 32 entries of 32 bytes, and a batch of 32 more with a hard state, prepared again and again. Standard input has
// a digit N for 1,000 N times. It prints how many records were prepared. (A program of its own: with both jobs in one, what they
// share is compiled in less well, and observing takes longer.)
#![tactic(auto)]

ghost use Rattle.std.specs.Prelude.{◌<◌};

use batches::{BatchEntry, RaftPersistenceBatch};
use codec::{DurableRaftEntryPayload, HardState, RaftWalRecord, WalRecord};
use ids::Lsn;
use recovery::observing;
use std::io::Read;
use std::{array, io};
use storage::RecoveredRaftStorage;

fn observed(
    t: RecoveredRaftStorage,
    kind: RaftWalRecord,
    lsn: u64,
    lent: &[u8],
    store: &mut [u8],
) -> RecoveredRaftStorage {
    let r = WalRecord {
        lsn: Lsn(lsn),
        body: Some(kind),
    };
    observing::observe_record(t, r, lent, store).state
}

fn kept(lent: &[u8], store: &mut [u8]) -> RecoveredRaftStorage {
    let own = bench_records::identity(0);
    let mut t = RecoveredRaftStorage::fresh();
    for i in 1..33 {
        t = observed(t, bench_records::entry(own, i, 0), i, lent, store);
    }
    t = observed(t, bench_records::hard_state(own, 32), 33, lent, store);
    finishing::finish(t, store).state
}

fn batch(entries: &[BatchEntry], commit: u64) -> RaftPersistenceBatch<'_> {
    RaftPersistenceBatch {
        snapshot: None,
        entries,
        hard_state: Some(HardState {
            current_term: 2,
            voted_for: None,
            commit,
        }),
    }
}

// A hundred preparations a round, of two batches in turn; the counts of their records, summed.
fn prepared(rounds: u64, lent: &[u8], store: &mut [u8]) -> u64
    requires { rounds < 100 }
{
    let own = bench_records::identity(0);
    let t = kept(lent, store);
    let entries: [BatchEntry; 32] = array::from_fn(|i| BatchEntry {
        index: 33 + i as u64,
        term: 1,
        payload: DurableRaftEntryPayload::Normal { place: 0, len: 32 },
    });
    let pair = [batch(&entries, 40), batch(&entries, 41)];
    let mut sum: u64 = 0;
    for k in 0..100 * rounds {
        let b = pair[(k % 2) as usize];
        if let Ok(records) = persistence::prepare_batch(t, store, own, b, lent) {
            sum = bench_records::added(sum, records.len() as u64);
        }
    }
    sum
}

fn main(rt: HostRuntime) -> io::Result<()> {
    let mut input = [0u8; 8];
    for (place, byte) in input.iter_mut().zip(rt.stdin().bytes()) {
        *place = byte?;
    }
    let lent = [90u8; 64];
    let mut store = [0u8; 32768];
    let sum = prepared(bench_records::rounds_of(input[0]), &lent, &mut store);
    rt.println(sum)
}
