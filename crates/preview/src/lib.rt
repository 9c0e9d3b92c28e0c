// The entries of a batch, one after the other, on a preview of the replica's log.
#![tactic(auto)]

ghost use Rattle.std.specs.Prelude.{◌≡◌, ◌<◌, ◌≤◌};
ghost use Rattle.replay.specs.Plan.{Replayable};
ghost use Rattle.view.specs.Decisions.{outcome_of};
ghost use Rattle.preview.specs.Preview.{supplied, holds_at, within, ran_with, taken_at, extend_over, Reached, Leaves, Sits, Takes};

use batches::{BatchEntry, entry};
use codec::RaftLogEntryRecord;
use ids::{Lsn, RaftReplicaIdentity, Refusal};
use view::{Header, RaftLogReplayOutcome, RecoveredRaftLogEntry};

// The log as the entries so far would leave it, and the LSN of the last of them. Entries stand in places as in a state (document 01),
// as many as the header says; their commands in a block of 4,096 bytes that is lent beside it, so that what fits them together (`Sits`) is
// asked.
#[derive(Clone, Copy, Debug, PartialEq, Eq)]
pub struct Preview {
    pub head: Header,
    pub entries: [RecoveredRaftLogEntry; 64],
    pub lsn: u64,
}

// What an entry of a batch is answered (25 to 32): e stands at the place looked at, `prior` at the one of the index before.
pub fn supply(
    head: Header,
    e: RecoveredRaftLogEntry,
    prior: RecoveredRaftLogEntry,
    r: RaftLogEntryRecord,
    block: &[u8],
    lent: &[u8],
) -> Result<RaftLogReplayOutcome, Refusal>
    requires { Replayable head e r block.now lent.now }
    ensures { outcome_of result ≡ supplied head e prior r block.now lent.now }
{
    let held = replay::existing(head, e, r, block, lent);
    let term = replay::prior_term(head, prior, r.index);
    view::decide_replay(head, held, term, r.index, r.term)
}

// Whether an index is the one of place q.
fn holds(head: Header, q: usize, index: u64) -> bool
    ensures { result ≡ holds_at head q index }
{
    index.checked_sub(head.base()) == Some(q as u64)
}

// A place, 0 for one past the 64.
fn place_within(q: usize) -> usize
    ensures { result ≡ within q }
{
    if q < 64 { q } else { 0 }
}

// An entry whose form is good, at place q: taken with the next LSN, or refused (25 to 32).
fn take_entry(
    preview: &mut Preview,
    q: usize,
    r: RaftLogEntryRecord,
    block: &mut [u8],
    lent: &[u8],
) -> Result<(), Refusal>
    requires { Takes preview.old q r block.old lent.now }
    ensures { ran_with result preview.new block.new ≡ taken_at preview.old q r block.old lent.now }
{
    let head = preview.head;
    let e = preview.entries[q];
    let prior = preview.entries[replay::look_before(head, r.index)];
    let outcome = supply(head, e, prior, r, &block[..], lent)?;
    let lsn = Lsn(preview.lsn + 1);
    let len = replay::len_after(head, r.index, outcome);
    preview.head = head.with_entry(len, lsn);
    preview.entries[q] = replay::write_entry(head, e, r, lsn, block, lent, outcome);
    preview.lsn = lsn.0;
    Ok(())
}

// The entries of a batch in their order, until the first refusal: the form of each (46, 3, 8, 9, 4, 10), the place at which its
// index is held, and what that says (25 to 32). An entry may replace one that the batch brought before. The inner search and the label
// are the form that document 01 asks for.
pub fn extend(
    preview: &mut Preview,
    identity: RaftReplicaIdentity,
    entries: &[BatchEntry],
    block: &mut [u8],
    lent: &[u8],
) -> Result<(), Refusal>
    requires { Sits preview.old block.old }
    ensures { Leaves (ran_with result preview.new block.new) (extend_over identity entries.now lent.now preview.old block.old)
        (Reached identity entries.now lent.now preview.old block.old) }
{
    let mut answer = Ok(());
    'batch: for entry in entries {
        let r = entry.record(identity);
        if let Err(why) = entry::check_entry(preview.lsn, r, lent) {
            answer = Err(why);
            break 'batch;
        }
        let mut q = preview.head.len;
        for k in 0..preview.head.len {
            if holds(preview.head, k, r.index) {
                q = k;
                break;
            }
        }
        if let Err(why) = take_entry(preview, place_within(q), r, block, lent) {
            answer = Err(why);
            break 'batch;
        }
    }
    answer
}
