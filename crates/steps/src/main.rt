// A journal on standard input, observed to its end, past refusals too; on standard output what each record was answered, the state, and the
// state once more when it is finished; or the first line that cannot be read. Nothing is written before all lines were read.
#![tactic(auto)]

use codec::WalRecord;
use journal::Recovered;
use journal::input::Source;
use recovery::observing;
use std::io::Write;
use std::process::ExitCode;
use storage::RecoveredRaftStorage;
use streams::Failed;
use tables::Output;
use text::command::Commands;

// The records of a chunk; their lines go to `out`.
fn observe_chunk(
    state: RecoveredRaftStorage,
    records: &[WalRecord],
    lent: &[u8],
    store: &mut [u8],
    out: &mut Output<217088>,
) -> RecoveredRaftStorage {
    let mut t = state;
    for r in records {
        let d = observing::observe_record(t, *r, lent, store);
        t = d.state;
        state_tables::write_step(r.lsn.0, d.answer, out);
    }
    t
}

// `most` records; their lines go to `out`.
fn observe_all(
    source: &mut Source,
    most: usize,
    commands: &Commands,
    store: &mut [u8],
    out: &mut Output<217088>,
) -> Result<Recovered, u64> {
    let mut state = RecoveredRaftStorage::fresh();
    let mut done: usize = 0;
    // No `for`: a turn goes on by what its read brought.
    while done < most {
        let chunk = journal::read_chunk(source, most - done, commands.lens());
        if chunk.bad {
            return Err(journal::line_behind(2, commands.count, done + chunk.records.len()));
        }
        state = observe_chunk(state, chunk.records.as_slice(), &commands.bytes, store, out);
        done += chunk.records.len();
    }
    let line = journal::line_behind(2, commands.count, most);
    Ok(Recovered { state, line })
}

// A journal, or the number of the first line that cannot be read: a line behind its last record is one too many.
fn observe(
    source: &mut Source,
    commands: &mut Commands,
    store: &mut [u8],
    out: &mut Output<217088>,
) -> Result<RecoveredRaftStorage, u64> {
    let most = journal::open(source, commands)?;
    let observed = observe_all(source, most, commands, store, out)?;
    if source.next_line().is_some() {
        return Err(observed.line);
    }
    Ok(observed.state)
}

fn print_state(
    to: &mut impl Write,
    state: &RecoveredRaftStorage,
    store: &[u8],
) -> Result<(), Failed> {
    let mut out = Output::new();
    state_tables::write_state(state, store, &mut out);
    streams::write(to, out.as_slice())
}

// The state, and the same when it is finished.
fn print_states(
    to: &mut impl Write,
    state: RecoveredRaftStorage,
    store: &[u8],
) -> Result<(), Failed> {
    print_state(to, &state, store)?;
    streams::write(to, b"finished\n")?;
    print_state(to, &finishing::finish(state, store).state, store)
}

// A record's line has at most 53 bytes, and a journal at most 4,096 records.
fn run(rt: HostRuntime) -> Result<(), Failed> {
    let mut buffer = io::large_buffer();
    let mut commands = Commands::none();
    let mut store = [0u8; 32768];
    let mut out = Output::new();
    let mut source = Source::new(rt, &mut buffer);
    let observed = observe(&mut source, &mut commands, &mut store, &mut out);
    source.outcome()?;
    let mut to = streams::stdout(rt);
    match observed {
        Err(line) => {
            let mut out = Output::new();
            tables::write_malformed(line, &mut out);
            streams::write(&mut to, out.as_slice())
        }
        Ok(state) => {
            streams::write(&mut to, out.as_slice())?;
            print_states(&mut to, state, &store)
        }
    }
}

fn main(rt: HostRuntime) -> ExitCode {
    streams::end(rt, run(rt))
}
