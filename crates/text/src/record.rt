// What a whole line says: a record, or a header's number.
#![tactic(auto, unfolding(crate::specs::Record::foreign_on, crate::specs::Record::hard_state_on, crate::specs::Record::pointer_on, crate::specs::Record::entry_on, crate::specs::Record::command_at, crate::specs::Record::change_on, crate::specs::Record::payload_on, crate::specs::Record::line_record, crate::specs::Record::line_header))]

ghost use Rattle.std.specs.Prelude.{◌≡◌, ◌≤◌, ◌+◌, IfSome};
ghost use Rattle.text.specs.Text.{commands_word, records_word};
ghost use Rattle.text.specs.Field.{number_on, vote_on};
ghost use Rattle.text.specs.Record.{identity_from, hard_state_from, pointer_on, foreign_on, hard_state_on, pointer_record_on, entry_on, command_at, change_on, payload_on, body_on, line_record, line_header, at_most256};

use crate::field::Field;
use crate::line::Line;
use codec::{
    ConfChangeKind, DurableRaftEntryPayload, HardState, RaftHardStateRecord, RaftLogEntryRecord,
    RaftSnapshotPointerRecord, RaftWalRecord, WalRecord,
};
use ids::{Lsn, RaftGroupId, RaftReplicaIdentity, ReplicaId};

pub fn identity_of(group: &Field, replica: &Field) -> Option<RaftReplicaIdentity>
    ensures { result ≡ identity_from (number_on group.now) (number_on replica.now) }
{
    Some(RaftReplicaIdentity {
        raft_group_id: RaftGroupId(group.number()?),
        replica_id: ReplicaId(replica.number()?),
    })
}

// term vote commit
pub fn hard_state_of(term: &Field, vote: &Field, commit: &Field) -> Option<HardState>
    ensures { result ≡ hard_state_from (number_on term.now) (vote_on vote.now) (number_on commit.now) }
{
    Some(HardState {
        current_term: term.number()?,
        voted_for: vote.vote()?,
        commit: commit.number()?,
    })
}

// version group replica ID index term applied size rest, from field `at` on, and the checksum of the open field
pub fn pointer_of(line: &Line, at: usize) -> Option<RaftSnapshotPointerRecord>
    requires { at ≤ 3 }
    ensures { result ≡ pointer_on line.now at }
{
    Some(RaftSnapshotPointerRecord {
        format_version: line.fields[at].version()?,
        identity: identity_of(&line.fields[at + 1], &line.fields[at + 2])?,
        snapshot_id: line.fields[at + 3].number()?,
        last_included_index: line.fields[at + 4].number()?,
        last_included_term: line.fields[at + 5].number()?,
        applied_index: line.fields[at + 6].number()?,
        size_bytes: line.fields[at + 7].number()?,
        rest: line.fields[at + 8].number()?,
        checksum: line.sum.checksum()?,
    })
}

// A count past 256 reads as 256.
pub fn at_most(count: usize) -> usize
    ensures { result ≡ at_most256 count }
{
    count.min(256)
}

// Command n, from 1 to 256: 65 bytes are kept for each.
pub fn command_at(n: u64, lens: &[u8]) -> Option<DurableRaftEntryPayload>
    ensures { result ≡ command_at n lens.now }
{
    if n < 1 || 256 < n {
        return None;
    }
    let i = n as usize - 1;
    let len = *lens.get(i)?;
    Some(DurableRaftEntryPayload::Normal {
        place: 65 * i,
        len: usize::from(len),
    })
}

// 'A' adds a learner, 'P' promotes, 'R' removes.
fn change_of(f: &Field) -> Option<ConfChangeKind>
    ensures { result ≡ change_on f.now }
{
    if f.is_word(b"A") {
        Some(ConfChangeKind::AddLearner)
    } else if f.is_word(b"P") {
        Some(ConfChangeKind::PromoteLearner)
    } else if f.is_word(b"R") {
        Some(ConfChangeKind::RemoveReplica)
    } else {
        None
    }
}

// N number; or A, P, R version replica; from field `at` on
pub fn payload_of(line: &Line, at: usize, lens: &[u8]) -> Option<DurableRaftEntryPayload>
    requires { at + 2 ≤ 12 }
    ensures { result ≡ payload_on line.now at lens.now }
{
    let what = &line.fields[at];
    if line.count == at + 1 && what.is_word(b"N") {
        return command_at(line.field.number()?, lens);
    }
    if line.count != at + 2 {
        return None;
    }
    Some(DurableRaftEntryPayload::Configuration {
        kind: change_of(what)?,
        expected_version: line.fields[at + 1].number()?,
        replica_id: ReplicaId(line.field.number()?),
    })
}

// F LSN
fn foreign(line: &Line) -> Option<WalRecord>
    ensures { result ≡ foreign_on line.now }
{
    if line.count != 1 {
        return None;
    }
    Some(WalRecord {
        lsn: Lsn(line.field.number()?),
        body: None,
    })
}

// H LSN version group replica term vote commit
fn hard_state(line: &Line) -> Option<RaftHardStateRecord>
    ensures { result ≡ hard_state_on line.now }
{
    if line.count != 7 {
        return None;
    }
    Some(RaftHardStateRecord {
        format_version: line.fields[2].version()?,
        identity: identity_of(&line.fields[3], &line.fields[4])?,
        hard_state: hard_state_of(&line.fields[5], &line.fields[6], &line.field)?,
    })
}

// P LSN version group replica ID index term applied size rest checksum
fn pointer(line: &Line) -> Option<RaftSnapshotPointerRecord>
    ensures { result ≡ pointer_record_on line.now }
{
    if line.count != 11 {
        return None;
    }
    pointer_of(line, 2)
}

// E LSN version group replica index term, then the payload
fn entry(line: &Line, lens: &[u8]) -> Option<RaftLogEntryRecord>
    ensures { result ≡ entry_on line.now lens.now }
{
    Some(RaftLogEntryRecord {
        format_version: line.fields[2].version()?,
        identity: identity_of(&line.fields[3], &line.fields[4])?,
        index: line.fields[5].number()?,
        term: line.fields[6].number()?,
        payload: payload_of(line, 7, lens)?,
    })
}

// A record by its letter.
fn body_of(line: &Line, lens: &[u8]) -> Option<RaftWalRecord>
    ensures { result ≡ body_on line.now lens.now }
{
    let kind = &line.fields[0];
    if kind.is_word(b"H") {
        Some(RaftWalRecord::HardState(hard_state(line)?))
    } else if kind.is_word(b"P") {
        Some(RaftWalRecord::SnapshotPointer(pointer(line)?))
    } else if kind.is_word(b"E") {
        Some(RaftWalRecord::Entry(entry(line, lens)?))
    } else {
        None
    }
}

// The record of a whole line. `lens` has the lengths of the commands that are given.
pub fn record_of(line: &Line, lens: &[u8]) -> Option<WalRecord>
    ensures { result ≡ line_record line.now lens.now }
{
    if line.fields[0].is_word(b"F") {
        return foreign(line);
    }
    Some(WalRecord {
        lsn: Lsn(line.fields[1].number()?),
        body: Some(body_of(line, lens)?),
    })
}

// The number behind a word of at most 16 bytes, up to `most`.
pub fn header_of(line: &Line, word: &[u8], most: u64) -> Option<u64>
    ensures value { result ≡ line_header line.now word.now most }
    ensures few { IfSome result (λ n. n ≤ most) }
{
    if line.count != 1 || !line.fields[0].is_word(word) {
        return None;
    }
    line.field.number().filter(|n| *n <= most)
}

// commands N, at most 256
pub fn commands_of(line: &Line) -> Option<u64>
    ensures value { result ≡ line_header line.now commands_word 256 }
    ensures few { IfSome result (λ n. n ≤ 256) }
{
    header_of(line, b"commands", 256)
}

// records N, at most 4,096
pub fn records_of(line: &Line) -> Option<u64>
    ensures value { result ≡ line_header line.now records_word 4096 }
    ensures few { IfSome result (λ n. n ≤ 4096) }
{
    header_of(line, b"records", 4096)
}
