// A journal on standard input, from its first line to its last record, or to the first line that is refused or cannot be read.
// What a read brings is not known to a contract: these functions promise what holds whatever it is.
#![tactic(auto)]

pub mod input;

ghost use Rattle.std.specs.Prelude.{◌≡◌, ◌≤◌, ℕ, ⊤, min, false, IfOk};
ghost use Rattle.store.specs.Zeros.{zeros};
ghost use Rattle.journal.specs.Recovered.{line_number, Follows};
ghost use Rattle.arrayvec.specs.ArrayVec.{array_vec_len};

use codec::WalRecord;
use fixed_vec::FixedVec;
use ids::{Lsn, Refusal};
use input::Source;
use recovery::observing;
use std::alloc::AllocError;
use std::marker::Model;
use storage::RecoveredRaftStorage;
use text::command::Commands;
use text::record;

// Why reading stopped before the end: at a line that cannot be read, by its number, or at a refused record.
#[derive(Clone, Copy, Debug, PartialEq, Eq)]
pub enum Stop {
    Malformed(u64),
    Refused { lsn: Lsn, why: Refusal },
}

// What was recovered, and for who reads on the number of the next line.
#[derive(Clone, Copy, Debug, PartialEq, Eq)]
pub struct Recovered {
    pub state: RecoveredRaftStorage,
    pub line: u64,
}

// The records that were read, and whether the line behind them cannot be read: a chunk that ends at such a line has records all the
// same, so it is no Result. It has a model of its own, with the same fields, so that a copy of it may stand beside it anywhere.
#[derive(Debug, PartialEq, Eq)]
pub struct Chunk {
    pub records: FixedVec<WalRecord, 256>,
    pub bad: bool,
}

impl Model for Chunk {
    ghost use Rattle.journal.specs.ReadRecords.{ReadRecords};

    ghost Value = { ReadRecords };

    ghost view = { λ c. record { records = c.records; bad = c.bad } };

    ghost inverse = { λ v. record { records = v.records; bad = v.bad } };
}

impl Clone for Chunk {
    ghost is_clone = { λ v w. w ≡ v };

    ghost is_infallible = { λ _. ⊤ };

    fn clone(&self) -> Result<Self, AllocError> {
        Ok(*self)
    }
}

impl Copy for Chunk {}

// So many commands, at most 256, up to a line that cannot be read. By number: its bytes, its length and the count go with it.
fn read_commands(source: &mut Source, most: usize, commands: &mut Commands) {
    commands.count = 0;
    for i in 0..most.min(256) {
        let at = 65 * i;
        let Some(len) = source.next_command(&mut commands.bytes[at..at + 65]) else {
            return;
        };
        commands.lens[i] = len as u8;
        commands.count = i + 1;
    }
}

// The next records, at most 256 and at most `most`, up to a line that is missing or cannot be read.
pub fn read_chunk(source: &mut Source, most: usize, lens: &[u8]) -> Chunk
    ensures within { array_vec_len result.records ≤ min most 256 }
    ensures whole { result.bad ≡ false → array_vec_len result.records ≡ min most 256 }
{
    let mut records = FixedVec::new();
    for _ in 0..most.min(256) {
        let Some(r) = source.next_record(lens) else {
            return Chunk { records, bad: true };
        };
        records.push(r);
    }
    Chunk {
        records,
        bad: false,
    }
}

// The number of the line behind so many headers, commands and records.
pub fn line_behind(headers: u64, commands: usize, records: usize) -> u64
    ensures { result ≡ line_number headers commands records }
{
    headers
        .wrapping_add(commands as u64)
        .wrapping_add(records as u64)
        .wrapping_add(1)
}

// `most` records. Beside the one of `steps`, which goes on past a refusal and takes no record of a chunk that ends at a bad line.
fn observe_all(
    source: &mut Source,
    most: usize,
    commands: &Commands,
    store: &mut [u8],
) -> Result<Recovered, Stop>
    requires { most ≤ 4096 }
    ensures follows { store.old ≡ zeros 32768 → IfOk result (λ d. Follows most d.state store.new) }
    ensures line { IfOk result (λ d. d.line ≡ line_number 2 commands.now.count most) }
{
    let mut state = RecoveredRaftStorage::fresh();
    let mut done: usize = 0;
    // No `for`: a turn goes on by what its read brought.
    while done < most {
        let chunk = read_chunk(source, most - done, commands.lens());
        let records = chunk.records.as_slice();
        let d = observing::observe_records(state, records, &commands.bytes, store);
        if let Err(why) = d.answer {
            let lsn = records.get(d.taken).map_or(Lsn::ZERO, |r| r.lsn);
            return Err(Stop::Refused { lsn, why });
        }
        state = d.state;
        done += chunk.records.len();
        if chunk.bad {
            return Err(Stop::Malformed(line_behind(2, commands.count, done)));
        }
    }
    let line = line_behind(2, commands.count, most);
    Ok(Recovered { state, line })
}

// The lines before the records: the commands, and how many records are given; or the number of the line that cannot be read.
pub fn open(source: &mut Source, commands: &mut Commands) -> Result<usize, u64>
    ensures { IfOk result (λ n. n ≤ 4096) }
{
    let Some(n) = source
        .next_line()
        .and_then(|line| record::commands_of(&line))
    else {
        return Err(1);
    };
    read_commands(source, n as usize, commands);
    if commands.count < n as usize {
        return Err(line_behind(1, commands.count, 0));
    }
    let Some(records) = source
        .next_line()
        .and_then(|line| record::records_of(&line))
    else {
        return Err(line_behind(1, commands.count, 0));
    };
    Ok(records as usize)
}

// A journal: what stands behind its last record is left. Over a store of zeros, what is recovered is sound, and what the definition
// leaves of as many records as there were, all accepted; which records these are no contract says.
pub fn recover(
    source: &mut Source,
    commands: &mut Commands,
    store: &mut [u8],
) -> Result<Recovered, Stop>
    ensures follows { store.old ≡ zeros 32768 → IfOk result (λ d. (n : ℕ) × (n ≤ 4096) × (d.line ≡ line_number 2 commands.new.count n) × Follows n d.state store.new) }
{
    let most = open(source, commands).map_err(|line| Stop::Malformed(line))?;
    observe_all(source, most, commands, store)
}
