// A replica's line, as the program `steps` prints it: decimal numbers, `-` for none, single spaces, a newline (10) at its end.
#![tactic(auto, unfolding(tables::specs::Tables::row, crate::specs::Model::spaced_all))]

ghost use Rattle.std.specs.Prelude.{◌≡◌, [], ◌∷◌, ◌++◌, ◌+◌, ◌≤◌, length};
ghost use Rattle.frontier.specs.Progress.{progress_of};
ghost use Rattle.ids.specs.Identity.{identity_of};
ghost use Rattle.codec.specs.Records.{maybe_hard_state_of};
ghost use Rattle.view.specs.Meaning.{lsn_of};
ghost use Rattle.tables.specs.Tables.{decimal, row, vote_field as maybeField};
ghost use Rattle.replica_line.specs.Lines.{replica_word, commit_word, boundary_fields, progress_fields, kept_fields, position_fields, lsn_fields, range_fields, replica_line};
ghost use Rattle.replica_line.specs.Model.{spaced_all, line_in};

use codec::HardState;
use frontier::RaftProgress;
use ids::{Lsn, RaftReplicaIdentity};
use tables::Output;
use view::{Header, RecoveredRaftLogEntry};

// An LSN as a number.
pub fn number_in(lsn: Option<Lsn>) -> Option<u64>
    ensures { result ≡ lsn_of lsn }
{
    let Lsn(n) = lsn?;
    Some(n)
}

// A number, `-` for none, and the byte that ends it. Not Output's put_vote: a vote is no number, and ends in a space.
pub fn put_maybe<const N: usize>(out: &mut Output<N>, n: Option<u64>, end: u8)
    requires { length out.old + 21 ≤ N }
    ensures text { out.new ≡ out.old ++ (maybeField n ++ end ∷ []) }
    ensures short { length out.new ≤ length out.old + 21 }
{
    match n {
        None => out.put(&[b'-', end]),
        Some(n) => out.put_number(n, end),
    }
}

// A word with a space behind it, an LSN, and a space.
fn put_named<const N: usize>(out: &mut Output<N>, word: &[u8], lsn: Option<Lsn>)
    requires { (length word.now ≤ 12) × (length out.old + 33 ≤ N) }
    ensures text { out.new ≡ out.old ++ (word.now ++ (maybeField (lsn_of lsn) ++ 32 ∷ [])) }
    ensures short { length out.new ≤ length out.old + 33 }
{
    out.put(word);
    put_maybe(out, number_in(lsn), b' ');
}

// boundary INDEX TERM, zeros where there is none
#[tactic(auto, unfolding(crate::specs::Model::spaced_all, tables::specs::Tables::decimal, tables::specs::Tables::digits_within))]
fn put_boundary<const N: usize>(out: &mut Output<N>, boundary: Option<(u64, u64)>)
    requires { length out.old + 51 ≤ N }
    ensures text { out.new ≡ out.old ++ spaced_all (boundary_fields boundary) }
    ensures short { length out.new ≤ length out.old + 51 }
{
    match boundary {
        None => out.put(b"boundary 0 0 "),
        Some((index, term)) => {
            out.put(b"boundary ");
            out.put_number(index, b' ');
            out.put_number(term, b' ');
        }
    }
}

// progress INDEX TERM APPLIED
fn put_progress<const N: usize>(out: &mut Output<N>, progress: RaftProgress)
    requires { length out.old + 72 ≤ N }
    ensures text { out.new ≡ out.old ++ spaced_all (progress_fields (progress_of progress)) }
    ensures short { length out.new ≤ length out.old + 72 }
{
    out.put(b"progress ");
    out.put_number(progress.truncated_through_index, b' ');
    out.put_number(progress.truncated_through_term, b' ');
    out.put_number(progress.applied_index, b' ');
}

// hard TERM VOTE COMMIT
fn put_hard_state<const N: usize>(out: &mut Output<N>, kept: Option<HardState>)
    requires { length out.old + 68 ≤ N }
    ensures text { out.new ≡ out.old ++ spaced_all (kept_fields (maybe_hard_state_of kept)) }
    ensures short { length out.new ≤ length out.old + 68 }
{
    match kept {
        None => out.put(b"hard - "),
        Some(hard_state) => {
            out.put(b"hard ");
            out.put_number(hard_state.current_term, b' ');
            out.put_vote(hard_state.voted_for);
            out.put_number(hard_state.commit, b' ');
        }
    }
}

// replica GROUP REPLICA
fn put_owner<const N: usize>(out: &mut Output<N>, identity: RaftReplicaIdentity)
    requires { length out.old + 50 ≤ N }
    ensures text { out.new ≡ out.old ++ spaced_all (replica_word ∷ decimal (identity_of identity).group ∷ decimal (identity_of identity).replica ∷ []) }
    ensures short { length out.new ≤ length out.old + 50 }
{
    out.put(b"replica ");
    out.put_identity(identity);
}

// commit INDEX
fn put_commit<const N: usize>(out: &mut Output<N>, commit: u64)
    requires { length out.old + 28 ≤ N }
    ensures text { out.new ≡ out.old ++ spaced_all (commit_word ∷ decimal commit ∷ []) }
    ensures short { length out.new ≤ length out.old + 28 }
{
    out.put(b"commit ");
    out.put_number(commit, b' ');
}

// Whose replica it is, its boundary, its progress and the view's commit.
fn put_position<const N: usize>(out: &mut Output<N>, h: Header, first: RecoveredRaftLogEntry)
    requires { length out.old + 201 ≤ N }
    ensures text { out.new ≡ out.old ++ spaced_all (position_fields (line_in h first)) }
    ensures short { length out.new ≤ length out.old + 201 }
{
    put_owner(out, h.identity);
    put_boundary(out, h.snapshot_boundary());
    put_progress(out, h.progress);
    put_commit(out, h.committed_index);
}

// The LSNs: of the hard state, of the pointer, the last replayed, and the least to recover from.
fn put_lsns<const N: usize>(out: &mut Output<N>, h: Header, first: RecoveredRaftLogEntry)
    requires { length out.old + 132 ≤ N }
    ensures text { out.new ≡ out.old ++ spaced_all (lsn_fields (line_in h first)) }
    ensures short { length out.new ≤ length out.old + 132 }
{
    put_named(out, b"hard-lsn ", h.hard_state_lsn);
    put_named(out, b"pointer-lsn ", h.snapshot_pointer_lsn);
    put_named(out, b"replayed ", h.last_replayed_lsn);
    put_named(out, b"minimum ", readers::minimum_of(h, first));
}

// log COUNT FIRST LAST RETAINED, and the end of the line
fn put_range<const N: usize>(out: &mut Output<N>, h: Header, first: RecoveredRaftLogEntry)
    requires { length out.old + 88 ≤ N }
    ensures text { out.new ≡ out.old ++ row (range_fields (line_in h first)) }
    ensures short { length out.new ≤ length out.old + 88 }
{
    out.put(b"log ");
    out.put_number(h.len as u64, b' ');
    put_maybe(out, h.first_index(), b' ');
    put_maybe(out, h.last_index(), b' ');
    put_maybe(out, number_in(h.first_retained_lsn(first)), b'\n');
}

// A replica's line.
pub fn put_line<const N: usize>(out: &mut Output<N>, h: Header, first: RecoveredRaftLogEntry)
    requires { length out.old + 489 ≤ N }
    ensures text { out.new ≡ out.old ++ replica_line (line_in h first) }
    ensures short { length out.new ≤ length out.old + 489 }
{
    put_position(out, h, first);
    put_hard_state(out, h.hard_state);
    put_lsns(out, h, first);
    put_range(out, h, first);
}
