// The output of the program `steps`: what each record was answered, and a whole state. Decimal numbers, `-` for none, single spaces, a
// newline (10) at the end of each line.
#![tactic(auto, unfolding(tables::specs::Tables::row))]

ghost use Rattle.std.specs.Prelude.{◌≡◌, [], ◌∷◌, ◌++◌, ◌+◌, ◌*◌, ◌≤◌, ◌<◌, length, take, Some};
ghost use Rattle.definition.specs.Records.{normal, inside};
ghost use Rattle.view.specs.Meaning.{snapshot_of, payload_in, cell_at};
ghost use Rattle.replay.specs.Plan.{answer_of};
ghost use Rattle.tables.specs.Tables.{row};
ghost use Rattle.state_tables.specs.Lines.{answer_fields, step_line, pointer_line, payload_fields};
ghost use Rattle.state_tables.specs.Model.{entry_in, entries_in, replica_in, scan_in, state_in};

use codec::RaftSnapshotPointerRecord;
use ids::Refusal;
use replay::Observation;
use storage::{RecoveredRaftStorage, Scan};
use tables::Output;
use view::{EntryPayload, RecoveredRaftLogEntry};

// What a record was answered, and the end of the line.
fn put_answer<const N: usize>(out: &mut Output<N>, answer: Result<Observation, Refusal>)
    requires { length out.old + 32 ≤ N }
    ensures text { out.new ≡ out.old ++ row (answer_fields (answer_of answer)) }
    ensures short { length out.new ≤ length out.old + 32 }
{
    match answer {
        Ok(Observation::Counted) => out.put(b"foreign\n"),
        Ok(Observation::Appended) => out.put(b"appended\n"),
        Ok(Observation::IdempotentReplay) => out.put(b"repeated\n"),
        Ok(Observation::ReplacedSuffix(r)) => out.put_count(b"replaced ", r.removed_entries),
        Ok(Observation::HardStateKept) => out.put(b"hard-state\n"),
        Ok(Observation::PointerKept(_)) => out.put(b"pointer\n"),
        Err(why) => out.put_count(b"refused ", why.number() as usize),
    }
}

// A record's line. Where there is no room for the longest one, 53 bytes, nothing is written.
pub fn write_step<const N: usize>(
    lsn: u64,
    answer: Result<Observation, Refusal>,
    out: &mut Output<N>,
)
    ensures line { length out.old + 53 ≤ N → out.new ≡ out.old ++ step_line lsn (answer_of answer) }
    ensures full { N < length out.old + 53 → out.new ≡ out.old }
    ensures short { length out.new ≤ length out.old + 53 }
{
    if out.room() < 53 {
        return;
    }
    out.put_number(lsn, b' ');
    put_answer(out, answer);
}

// pointer ID INDEX TERM APPLIED SIZE REST CHECKSUM, two spaces in front
fn put_pointer(out: &mut Output<131072>, p: RaftSnapshotPointerRecord)
    requires { length out.old + 201 ≤ 131072 }
    ensures text { out.new ≡ out.old ++ pointer_line (snapshot_of (Some p)) }
    ensures short { length out.new ≤ length out.old + 201 }
{
    out.put(b"  pointer ");
    batch_tables::put_snapshot(out, p);
    batch_tables::put_checksum(out, p.checksum);
}

// N HEX, of the bytes that cell k has, and the end of the line
fn put_command(out: &mut Output<131072>, store: &[u8], k: usize, len: usize)
    requires { (k < 512) × (length out.old + 131 ≤ 131072) }
    ensures text { out.new ≡ out.old ++ row (payload_fields (normal (inside (take len (cell_at store.now k))))) }
    ensures short { length out.new ≤ length out.old + 131 }
{
    out.put(b"N ");
    batch_tables::put_hex(out, shown::part(store, 64 * k, len.min(64)));
    out.put(b"\n");
}

// The payload, and the end of the line.
fn put_payload(out: &mut Output<131072>, payload: EntryPayload, store: &[u8], k: usize)
    requires { (k < 512) × (length out.old + 131 ≤ 131072) }
    ensures text { out.new ≡ out.old ++ row (payload_fields (payload_in payload (cell_at store.now k))) }
    ensures short { length out.new ≤ length out.old + 131 }
{
    match payload {
        EntryPayload::Normal { len } => put_command(out, store, k, len),
        EntryPayload::Configuration {
            kind,
            expected_version,
            replica_id,
        } => batch_tables::put_configuration(out, kind, expected_version, replica_id.0),
    }
}

// entry INDEX TERM LSN, then the payload, two spaces in front
#[tactic(auto, unfolding(tables::specs::Tables::row, crate::specs::Lines::entry_line))]
fn put_entry(out: &mut Output<131072>, index: u64, e: RecoveredRaftLogEntry, store: &[u8], k: usize)
    requires { (k < 512) × (length out.old + 202 ≤ 131072) }
    ensures text { out.new ≡ out.old ++ entry_in index e store.now k }
    ensures short { length out.new ≤ length out.old + 202 }
{
    out.put(b"  entry ");
    out.put_number(index, b' ');
    out.put_number(e.term, b' ');
    out.put_number(e.lsn.0, b' ');
    put_payload(out, e.payload, store, k);
}

// A state and the store that is lent beside it. They need not be sound: whatever they hold is written.
#[derive(Clone, Copy)]
struct Storage<'a> {
    state: &'a RecoveredRaftStorage,
    store: &'a [u8],
}

impl<'a> Storage<'a> {
    // The lines of the entries of replica place p, each with its cell by its place. An index past 64 bits is their largest number.
    #[tactic(auto, using(tables::proofs::Text::lines_step), unfolding(tables::specs::Model::lines_to))]
    fn put_entries(&self, out: &mut Output<131072>, p: usize)
        requires { (p < 8) × (length out.old + 12928 ≤ 131072) }
        ensures text { out.new ≡ out.old ++ entries_in self.now.state.now self.now.store.now p }
        ensures short { length out.new ≤ length out.old + 12928 }
    {
        let h = self.state.heads[p];
        let first = h.base();
        for q in 0..h.len.min(64) {
            let k = 64 * p + q;
            put_entry(
                out,
                first.saturating_add(q as u64),
                self.state.entries[k],
                self.store,
                k,
            );
        }
    }

    // All lines of the replica at place p.
    #[tactic(auto, unfolding(crate::specs::Model::replica_in))]
    fn put_replica(&self, out: &mut Output<131072>, p: usize)
        requires { (p < 8) × (length out.old + 13618 ≤ 131072) }
        ensures text { out.new ≡ out.old ++ replica_in self.now.state.now self.now.store.now p }
        ensures short { length out.new ≤ length out.old + 13618 }
    {
        let h = self.state.heads[p];
        replica_line::put_line(out, h, self.state.entries[64 * p]);
        if let Some(pointer) = h.snapshot {
            put_pointer(out, pointer);
        }
        self.put_entries(out, p);
    }
}

// scanned N last LSN
fn put_scan(out: &mut Output<131072>, scan: Scan)
    requires { length out.old + 55 ≤ 131072 }
    ensures text { out.new ≡ out.old ++ scan_in scan }
    ensures short { length out.new ≤ length out.old + 55 }
{
    out.put(b"scanned ");
    out.put_number(scan.scanned_records, b' ');
    out.put(b"last ");
    replica_line::put_maybe(out, replica_line::number_in(scan.last_scanned_lsn), b'\n');
}

// A whole state.
#[tactic(auto, using(tables::proofs::Text::lines_step), unfolding(tables::specs::Model::lines_to, crate::specs::Model::state_in))]
pub fn write_state(state: &RecoveredRaftStorage, store: &[u8], out: &mut Output<131072>)
    ensures text { out.new ≡ state_in state.now store.now }
    ensures short { length out.new ≤ 131072 }
{
    out.clear();
    put_scan(out, state.scan);
    let storage = Storage { state, store };
    for p in 0..state.held.min(8) {
        storage.put_replica(out, p);
    }
}
