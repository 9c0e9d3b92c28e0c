// The clauses of soundness that look at one header, or at one held entry and its cell.
#![tactic(auto, unfolding(crate::specs::Clauses::head_clauses, crate::specs::Clauses::entry_clauses))]

ghost use Rattle.std.specs.Prelude.{◌≡◌, [], length};
ghost use Rattle.definition.specs.Recovery.{nonzero_identity, whole_boundary, pointers_boundary, boundarys_progress, nonzero_vote, reached_by};
ghost use Rattle.ids.specs.Identity.{identity_of};
ghost use Rattle.view.specs.Meaning.{lsn_of, size_of, log_of};
ghost use Rattle.clauses.specs.Clauses.{lsn_ok, head_ok, entry_ok, fit_of, lsns_of};

use ids::{Lsn, RaftReplicaIdentity};
use view::{EntryPayload, Header, RecoveredRaftLogEntry};

// Whether an LSN does not exceed the last scanned.
fn reached(last: Option<Lsn>, lsn: Lsn) -> bool
    ensures { result ≡ reached_by (lsn_of last) lsn.0 }
{
    last.is_some_and(|x| lsn <= x)
}

// The same of an LSN that may be absent.
fn lsn_ok(last: Option<Lsn>, lsn: Option<Lsn>) -> bool
    ensures { result ≡ lsn_ok (lsn_of last) lsn }
{
    match lsn {
        None => true,
        Some(x) => reached(last, x),
    }
}

// No part of the identity is zero.
fn identity_ok(i: RaftReplicaIdentity) -> bool
    ensures { result ≡ nonzero_identity (identity_of i) }
{
    i.raft_group_id.0 != 0 && i.replica_id.0 != 0
}

// Boundary index and term are both zero or both not.
fn boundary_whole(h: Header) -> bool
    ensures { result ≡ whole_boundary (log_of h []) }
{
    (h.snapshot_index == 0) == (h.snapshot_term == 0)
}

// The boundary is the pointer's, and zero without one.
fn boundary_pointed(h: Header) -> bool
    ensures { result ≡ pointers_boundary (log_of h []) }
{
    match h.snapshot {
        None => h.snapshot_index == 0 && h.snapshot_term == 0,
        Some(p) => h.snapshot_index == p.last_included_index
            && h.snapshot_term == p.last_included_term,
    }
}

// Progress is the boundary's.
fn progress_ok(h: Header) -> bool
    ensures { result ≡ boundarys_progress (log_of h []) }
{
    h.progress.truncated_through_index == h.snapshot_index
        && h.progress.truncated_through_term == h.snapshot_term
        && h.progress.applied_index == h.snapshot_index
}

// Each held entry has an index.
fn indices_fit(h: Header) -> bool
    ensures { result ≡ fit_of h }
{
    h.len as u64 <= u64::MAX - h.snapshot_index || h.snapshot_index == u64::MAX && h.len <= 1
}

// No kept vote is zero.
fn vote_ok(h: Header) -> bool
    ensures { result ≡ nonzero_vote (log_of h []) }
{
    match h.hard_state {
        None => true,
        Some(hard) => !codec::zero_vote(hard),
    }
}

// No LSN that a header keeps exceeds the last scanned.
fn lsns_ok(last: Option<Lsn>, h: Header) -> bool
    ensures { result ≡ lsns_of (lsn_of last) h }
{
    lsn_ok(last, h.snapshot_pointer_lsn)
        && lsn_ok(last, h.hard_state_lsn)
        && lsn_ok(last, h.last_replayed_lsn)
}

// Each clause that looks at a header alone.
pub fn head_ok(last: Option<Lsn>, h: Header) -> bool
    ensures { result ≡ head_ok (lsn_of last) h }
{
    identity_ok(h.identity)
        && h.len <= 64
        && boundary_whole(h)
        && boundary_pointed(h)
        && progress_ok(h)
        && indices_fit(h)
        && vote_ok(h)
        && lsns_ok(last, h)
}

// The bytes of a kept payload.
fn size(payload: EntryPayload) -> usize
    ensures { result ≡ size_of payload }
{
    match payload {
        EntryPayload::Normal { len } => len,
        EntryPayload::Configuration { .. } => 0,
    }
}

// A held entry and its cell: the bytes after the command are zero.
pub fn entry_ok(last: Option<Lsn>, e: RecoveredRaftLogEntry, cell: &[u8]) -> bool
    requires { length cell.now ≡ 64 }
    ensures { result ≡ entry_ok (lsn_of last) e cell.now }
{
    let n = size(e.payload);
    n <= 64 && reached(last, e.lsn) && store::is_zero(&cell[n..64])
}
