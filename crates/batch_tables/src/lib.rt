// The output of the program `batch`: the prepared records or a refusal, the commands shown, the minimum recovery LSN. Records have the
// fields of a journal's lines without the LSN; a command stands there by the least number that was given the same bytes.
#![tactic(auto, unfolding(tables::specs::Tables::row))]

ghost use Rattle.std.specs.Prelude.{◌≡◌, ◌∷◌, [], ◌++◌, ◌+◌, ◌*◌, ◌≤◌, ◌<◌, length, take, drop};
ghost use Rattle.ids.specs.Identity.{identity_of};
ghost use Rattle.codec.specs.Records.{change_of, hard_state_of, checksum_of, pointer_of};
ghost use Rattle.view.specs.Meaning.{lsn_of};
ghost use Rattle.text.specs.Record.{commands_in};
ghost use Rattle.tables.specs.Tables.{row};
ghost use Rattle.batch_tables.specs.Lines.{hex_glyph, hex_text, word_text, checksum_text, least_number, owner_text, normal_fields, change_letter, change_fields, hard_state_line, snapshot_text, pointer_line, journal_refused, source_word, command_text, shown_line, minimum_line};
ghost use Rattle.batch_tables.specs.Model.{payload_fields, entry_text, raft_text, record_text, record_texts, prepared_text, Given};

use codec::{
    Checksum, ConfChangeKind, DurableRaftEntryPayload, RaftHardStateRecord, RaftLogEntryRecord,
    RaftSnapshotPointerRecord, RaftWalRecord,
};
use ids::{Lsn, RaftReplicaIdentity, Refusal};
use persistence::{PreparedBatch, PreparedRecord};
use std::marker::Model;
use tables::Output;

// The commands that were given, at most 256: how many, the length of each, and the lent bytes, 65 for each. Contracts see the commands
// and the lent bytes. Not text's Commands: a caller of write_prepared may lend parts of any length.
#[derive(Drop)]
struct Commands<'a> {
    count: usize,
    lens: &'a [u8],
    lent: &'a [u8],
}

impl<'a> Model for Commands<'a> {
    ghost Value = { Given };

    ghost view = { λ c. record { commands = commands_in c.count c.lens.now c.lent.now; lent = c.lent.now } };
}

impl<'a> Commands<'a> {
    // The least number of a command with these bytes of the lent ones; 0 where none has them. By number: its bytes and its length stand
    // at it.
    fn number_of(&self, place: usize, len: usize) -> u64
        ensures { result ≡ least_number self.now.commands (take len (drop place self.now.lent)) }
    {
        let wanted = shown::part(self.lent, place, len);
        for i in 0..text::record::at_most(self.count).min(self.lens.len()) {
            if shown::part(self.lent, 65 * i, self.lens[i] as usize) == wanted {
                return i as u64 + 1;
            }
        }
        0
    }
}

// A hex digit, in small letters. By hand: the library's `from_digit` answers an Option of a char, which is no plainer.
fn digit(n: u8) -> u8
    requires { n < 16 }
    ensures { result ≡ hex_glyph n }
{
    if n < 10 { b'0' + n } else { b'a' + (n - 10) }
}

// Bytes as hex digits, two each.
#[tactic(auto, using(tables::proofs::Text::lines_step), unfolding(tables::specs::Model::lines_to))]
pub fn put_hex<const N: usize>(out: &mut Output<N>, bytes: &[u8])
    requires { length out.old + 2 * length bytes.now ≤ N }
    ensures text { out.new ≡ out.old ++ hex_text bytes.now }
    ensures short { length out.new ≤ length out.old + 2 * length bytes.now }
{
    for b in bytes {
        out.put(&[digit(*b / 16), digit(*b % 16)]);
    }
}

// A number of 64 bits as 16 hex digits.
fn put_word<const N: usize>(out: &mut Output<N>, n: u64)
    requires { length out.old + 16 ≤ N }
    ensures text { out.new ≡ out.old ++ word_text n }
    ensures short { length out.new ≤ length out.old + 16 }
{
    put_hex(out, &n.to_be_bytes());
}

// A checksum, and the end of the line.
pub fn put_checksum<const N: usize>(out: &mut Output<N>, c: Checksum)
    requires { length out.old + 65 ≤ N }
    ensures text { out.new ≡ out.old ++ (checksum_text (checksum_of c) ++ 10 ∷ []) }
    ensures short { length out.new ≤ length out.old + 65 }
{
    put_word(out, c.a);
    put_word(out, c.b);
    put_word(out, c.c);
    put_word(out, c.d);
    out.put(b"\n");
}

// Version, group and replica, a space behind each.
fn put_owner(out: &mut Output<65536>, version: u32, identity: RaftReplicaIdentity)
    requires { length out.old + 63 ≤ 65536 }
    ensures text { out.new ≡ out.old ++ owner_text version (identity_of identity) }
    ensures short { length out.new ≤ length out.old + 63 }
{
    out.put_number(version as u64, b' ');
    out.put_identity(identity);
}

// 'A' adds a learner, 'P' promotes, 'R' removes; a space behind it.
fn put_change<const N: usize>(out: &mut Output<N>, kind: ConfChangeKind)
    requires { length out.old + 2 ≤ N }
    ensures text { out.new ≡ out.old ++ change_letter (change_of kind) ∷ 32 ∷ [] }
    ensures short { length out.new ≤ length out.old + 2 }
{
    match kind {
        ConfChangeKind::AddLearner => out.put(b"A "),
        ConfChangeKind::PromoteLearner => out.put(b"P "),
        ConfChangeKind::RemoveReplica => out.put(b"R "),
    }
}

// N number
fn put_normal(out: &mut Output<65536>, number: u64)
    requires { length out.old + 23 ≤ 65536 }
    ensures text { out.new ≡ out.old ++ row (normal_fields number) }
    ensures short { length out.new ≤ length out.old + 23 }
{
    out.put(b"N ");
    out.put_number(number, b'\n');
}

// A|P|R version replica
pub fn put_configuration<const N: usize>(
    out: &mut Output<N>,
    kind: ConfChangeKind,
    version: u64,
    replica: u64,
)
    requires { length out.old + 44 ≤ N }
    ensures text { out.new ≡ out.old ++ row (change_fields (change_of kind) version replica) }
    ensures short { length out.new ≤ length out.old + 44 }
{
    put_change(out, kind);
    out.put_number(version, b' ');
    out.put_number(replica, b'\n');
}

// The payload, and the end of the line.
fn put_payload<'a>(out: &mut Output<65536>, payload: DurableRaftEntryPayload, given: &Commands<'a>)
    requires { length out.old + 44 ≤ 65536 }
    ensures text { out.new ≡ out.old ++ row (payload_fields payload given.now.commands given.now.lent) }
    ensures short { length out.new ≤ length out.old + 44 }
{
    match payload {
        DurableRaftEntryPayload::Normal { place, len } => {
            put_normal(out, given.number_of(place, len))
        }
        DurableRaftEntryPayload::Configuration {
            kind,
            expected_version,
            replica_id,
        } => put_configuration(out, kind, expected_version, replica_id.0),
    }
}

// E version group replica index term, then the payload
fn put_entry<'a>(out: &mut Output<65536>, e: RaftLogEntryRecord, given: &Commands<'a>)
    requires { length out.old + 151 ≤ 65536 }
    ensures text { out.new ≡ out.old ++ entry_text e given.now.commands given.now.lent }
    ensures short { length out.new ≤ length out.old + 151 }
{
    out.put(b"E ");
    put_owner(out, e.format_version, e.identity);
    out.put_number(e.index, b' ');
    out.put_number(e.term, b' ');
    put_payload(out, e.payload, given);
}

// H version group replica term vote commit
fn put_hard_state(out: &mut Output<65536>, r: RaftHardStateRecord)
    requires { length out.old + 128 ≤ 65536 }
    ensures text { out.new ≡ out.old ++ hard_state_line r.format_version (identity_of r.identity) (hard_state_of r.hard_state) }
    ensures short { length out.new ≤ length out.old + 128 }
{
    out.put(b"H ");
    put_owner(out, r.format_version, r.identity);
    out.put_hard_state(r.hard_state);
}

// ID, index, term, applied, size and rest of a pointer, a space behind each.
pub fn put_snapshot<const N: usize>(out: &mut Output<N>, p: RaftSnapshotPointerRecord)
    requires { length out.old + 126 ≤ N }
    ensures text { out.new ≡ out.old ++ snapshot_text (pointer_of p) }
    ensures short { length out.new ≤ length out.old + 126 }
{
    out.put_number(p.snapshot_id, b' ');
    out.put_number(p.last_included_index, b' ');
    out.put_number(p.last_included_term, b' ');
    out.put_number(p.applied_index, b' ');
    out.put_number(p.size_bytes, b' ');
    out.put_number(p.rest, b' ');
}

// P version group replica ID index term applied size rest checksum
fn put_pointer(out: &mut Output<65536>, p: RaftSnapshotPointerRecord)
    requires { length out.old + 256 ≤ 65536 }
    ensures text { out.new ≡ out.old ++ pointer_line (identity_of p.identity) (pointer_of p) }
    ensures short { length out.new ≤ length out.old + 256 }
{
    out.put(b"P ");
    put_owner(out, p.format_version, p.identity);
    put_snapshot(out, p);
    put_checksum(out, p.checksum);
}

// A replica's record.
fn put_raft<'a>(out: &mut Output<65536>, r: RaftWalRecord, given: &Commands<'a>)
    requires { length out.old + 256 ≤ 65536 }
    ensures text { out.new ≡ out.old ++ raft_text r given.now.commands given.now.lent }
    ensures short { length out.new ≤ length out.old + 256 }
{
    match r {
        RaftWalRecord::Entry(e) => put_entry(out, e, given),
        RaftWalRecord::HardState(h) => put_hard_state(out, h),
        RaftWalRecord::SnapshotPointer(p) => put_pointer(out, p),
    }
}

// A record; one without a body is no line.
fn put_record<'a>(out: &mut Output<65536>, r: PreparedRecord, given: &Commands<'a>)
    requires { length out.old + 256 ≤ 65536 }
    ensures text { out.new ≡ out.old ++ record_text r.body given.now.commands given.now.lent }
    ensures short { length out.new ≤ length out.old + 256 }
{
    if let Some(raft) = r.body {
        put_raft(out, raft, given);
    }
}

// The records in order.
#[tactic(auto, using(tables::proofs::Text::lines_step), unfolding(tables::specs::Tables::row, tables::specs::Model::lines_to))]
fn put_records<'a>(out: &mut Output<65536>, records: &[PreparedRecord], given: &Commands<'a>)
    requires { (out.old ≡ []) × (length records.now ≤ 34) }
    ensures text { out.new ≡ record_texts records.now given.now.commands given.now.lent }
    ensures short { length out.new ≤ 8704 }
{
    for r in records {
        put_record(out, *r, given);
    }
}

// What preparing answered: a refusal, or the records in order.
#[tactic(auto, unfolding(tables::specs::Tables::row, crate::specs::Model::prepared_text))]
pub fn write_prepared(
    prepared: &Result<PreparedBatch, Refusal>,
    commands: usize,
    lens: &[u8],
    lent: &[u8],
    out: &mut Output<65536>,
)
    ensures text { out.new ≡ prepared_text prepared.now (commands_in commands lens.now lent.now) lent.now }
    ensures short { length out.new ≤ 65536 }
{
    out.clear();
    let given = Commands {
        count: commands,
        lens,
        lent,
    };
    match prepared {
        Err(why) => out.put_count(b"refused ", why.number() as usize),
        Ok(records) => put_records(out, records.as_slice(), &given),
    }
}

// journal refused LSN NUMBER. Beside tables' write_refused: one word before the same two numbers, which as a parameter is no plainer.
pub fn write_journal_refused(lsn: u64, number: u64, out: &mut Output<65536>)
    ensures text { out.new ≡ journal_refused lsn number }
    ensures short { length out.new ≤ 65536 }
{
    out.clear();
    out.put(b"journal refused ");
    out.put_number(lsn, b' ');
    out.put_number(number, b'\n');
}

// The word for where a command is from.
fn put_source(out: &mut Output<65536>, of_batch: bool)
    requires { length out.old + 5 ≤ 65536 }
    ensures text { out.new ≡ out.old ++ source_word of_batch }
    ensures short { length out.new ≤ length out.old + 5 }
{
    if of_batch {
        out.put(b"batch");
    } else {
        out.put(b"log");
    }
}

// A space and the bytes in hex, nothing where there is no byte; and the end of the line.
fn put_command(out: &mut Output<65536>, bytes: &[u8])
    requires { (length out.old + 130 ≤ 65536) × (length bytes.now ≤ 64) }
    ensures text { out.new ≡ out.old ++ command_text bytes.now }
    ensures short { length out.new ≤ length out.old + 130 }
{
    if !bytes.is_empty() {
        out.put(b" ");
        put_hex(out, bytes);
    }
    out.put(b"\n");
}

// shown INDEX log|batch [HEX], of the first 64 bytes: no kept command has more. A flag, as the line's definition has it.
pub fn write_shown(index: u64, of_batch: bool, bytes: &[u8], out: &mut Output<65536>)
    ensures text { out.new ≡ shown_line index of_batch (take 64 bytes.now) }
    ensures short { length out.new ≤ 65536 }
{
    out.clear();
    out.put(b"shown ");
    out.put_number(index, b' ');
    put_source(out, of_batch);
    put_command(out, shown::part(bytes, 0, 64));
}

// minimum LSN, or minimum -
pub fn write_minimum(lsn: Option<Lsn>, out: &mut Output<65536>)
    ensures text { out.new ≡ minimum_line (lsn_of lsn) }
    ensures short { length out.new ≤ 65536 }
{
    out.clear();
    out.put(b"minimum ");
    match lsn {
        None => out.put(b"-\n"),
        Some(least) => out.put_number(least.0, b'\n'),
    }
}
