// The output of the program `recover` (document 01): the tables of a finished state, a refusal, a malformed line. Decimal numbers,
// single spaces, a newline (10) at the end of each line.
#![tactic(auto, unfolding(crate::specs::Tables::row))]

ghost use Rattle.std.specs.Prelude.{◌≡◌, ◌++◌, ◌+◌, ◌≤◌, ◌<◌, length, get_or};
ghost use Rattle.ids.specs.Identity.{identity_of};
ghost use Rattle.codec.specs.Records.{hard_state_of, maybe_hard_state_of};
ghost use Rattle.storage.specs.Model.{no_header};
ghost use Rattle.tables.specs.Tables.{row, shown_hard, entry_line, refused_line, malformed_line};
ghost use Rattle.tables.specs.Model.{lines_to, sum_to, head_line, head_lines, len_of, log_lines, tables_of};

mod output;

use codec::HardState;
use ids::RaftReplicaIdentity;
pub use output::Output;
use storage::RecoveredRaftStorage;
use view::{Header, RecoveredRaftLogEntry};

// What is shown of a replica's hard state: the commit is the larger of its own and the view's. Without one, what Raft begins with and
// the view's commit.
fn shown_hard(kept: Option<HardState>, committed: u64) -> HardState
    ensures { hard_state_of result ≡ shown_hard (maybe_hard_state_of kept) committed }
{
    match kept {
        None => HardState {
            current_term: 0,
            voted_for: None,
            commit: committed,
        },
        Some(hard_state) => HardState {
            commit: hard_state.commit.max(committed),
            ..hard_state
        },
    }
}

// A replica's line: group, replica, boundary index and term, current term, vote and commit.
fn put_replica(out: &mut Output<65536>, h: Header)
    requires { length out.old + 147 ≤ 65536 }
    ensures text { out.new ≡ out.old ++ head_line h }
    ensures short { length out.new ≤ length out.old + 147 }
{
    out.put_identity(h.identity);
    out.put_number(h.snapshot_index, b' ');
    out.put_number(h.snapshot_term, b' ');
    out.put_hard_state(shown_hard(h.hard_state, h.committed_index));
}

// An entry's line: group, replica, index, term, LSN.
fn put_entry(
    out: &mut Output<65536>,
    identity: RaftReplicaIdentity,
    index: u64,
    e: RecoveredRaftLogEntry,
)
    requires { length out.old + 105 ≤ 65536 }
    ensures text { out.new ≡ out.old ++ entry_line (identity_of identity) index e.term e.lsn.0 }
    ensures short { length out.new ≤ length out.old + 105 }
{
    out.put_identity(identity);
    out.put_number(index, b' ');
    out.put_number(e.term, b' ');
    out.put_number(e.lsn.0, b'\n');
}

// The lines of the replicas.
#[tactic(auto, using(crate::proofs::Text::lines_step), unfolding(crate::specs::Model::lines_to))]
fn put_replicas(out: &mut Output<65536>, heads: &[Header])
    requires { (length heads.now ≤ 8) × (length out.old + 1176 ≤ 65536) }
    ensures text { out.new ≡ out.old ++ lines_to (length heads.now) (λ p. head_line (get_or heads.now p no_header)) }
    ensures short { length out.new ≤ length out.old + 1176 }
{
    for h in heads {
        put_replica(out, *h);
    }
}

// The entries of all replicas.
#[tactic(auto, using(crate::proofs::Text::sum_step), unfolding(crate::specs::Model::sum_to))]
fn count_entries(heads: &[Header]) -> usize
    requires { length heads.now ≤ 8 }
    ensures { result ≡ sum_to (length heads.now) (λ p. len_of (get_or heads.now p no_header)) }
{
    let mut n = 0;
    for h in heads {
        n += h.len.min(64);
    }
    n
}

// The lines of the entries of replica place p. An index past 64 bits is their largest number.
// By place: an entry's index follows from it, and its bounds are the array's and the header's.
#[tactic(auto, using(crate::proofs::Text::lines_step), unfolding(crate::specs::Model::lines_to))]
fn put_log(out: &mut Output<65536>, state: RecoveredRaftStorage, p: usize)
    requires { (p < 8) × (length out.old + 6720 ≤ 65536) }
    ensures text { out.new ≡ out.old ++ log_lines state p }
    ensures short { length out.new ≤ length out.old + 6720 }
{
    let h = state.heads[p];
    let first = h.base();
    for q in 0..h.len.min(64) {
        put_entry(
            out,
            h.identity,
            first.saturating_add(q as u64),
            state.entries[64 * p + q],
        );
    }
}

// All but the entries' lines.
fn put_heads(out: &mut Output<65536>, heads: &[Header])
    requires { (length heads.now ≤ 8) × (length out.old + 1240 ≤ 65536) }
    ensures text { out.new ≡ out.old ++ head_lines heads.now (length heads.now) }
    ensures short { length out.new ≤ length out.old + 1240 }
{
    out.put_count(b"replicas ", heads.len());
    put_replicas(out, heads);
    out.put_count(b"entries ", count_entries(heads));
}

// The tables of a state.
#[tactic(auto, using(crate::proofs::Text::lines_step, crate::proofs::Law::head_lines_of), unfolding(crate::specs::Model::lines_to, crate::specs::Model::tables_of))]
pub fn write_tables(state: RecoveredRaftStorage, out: &mut Output<65536>)
    ensures text { out.new ≡ tables_of state }
    ensures short { length out.new ≤ 65536 }
{
    let held = state.held.min(8);
    out.clear();
    put_heads(out, &state.heads[..held]);
    for p in 0..held {
        put_log(out, state, p);
    }
}

// `refused LSN NUMBER`
#[tactic(auto, unfolding(crate::specs::Tables::row, crate::specs::Tables::refused_line))]
pub fn write_refused(lsn: u64, number: u64, out: &mut Output<65536>)
    ensures text { out.new ≡ refused_line lsn number }
    ensures short { length out.new ≤ 65536 }
{
    out.clear();
    out.put(b"refused ");
    out.put_number(lsn, b' ');
    out.put_number(number, b'\n');
}

// `line K malformed`
#[tactic(auto, unfolding(crate::specs::Tables::row, crate::specs::Tables::malformed_line))]
pub fn write_malformed(line: u64, out: &mut Output<65536>)
    ensures text { out.new ≡ malformed_line line }
    ensures short { length out.new ≤ 65536 }
{
    out.clear();
    out.put(b"line ");
    out.put_number(line, b' ');
    out.put(b"malformed\n");
}
