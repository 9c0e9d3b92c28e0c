// Document 01's `recover`: a journal on standard input; on standard output the tables, the first refusal, the first line that cannot be
// read, or that reading failed.
#![tactic(auto)]

use journal::Stop;
use journal::input::Source;
use std::process::ExitCode;
use storage::RecoveredRaftStorage;
use streams::Failed;
use tables::Output;
use text::command::Commands;

// What the whole input recovers: a line behind the last record is one too many.
fn recovered(source: &mut Source, store: &mut [u8]) -> Result<RecoveredRaftStorage, Stop> {
    let recovered = journal::recover(source, &mut Commands::none(), store)?;
    if source.next_line().is_some() {
        return Err(Stop::Malformed(recovered.line));
    }
    Ok(recovered.state)
}

// What is printed.
fn print(answer: Result<RecoveredRaftStorage, Stop>, store: &[u8], out: &mut Output<65536>) {
    match answer {
        Ok(state) => tables::write_tables(finishing::finish(state, store).state, out),
        Err(Stop::Malformed(line)) => tables::write_malformed(line, out),
        Err(Stop::Refused { lsn, why }) => tables::write_refused(lsn.0, why.number(), out),
    }
}

fn run(rt: HostRuntime) -> Result<(), Failed> {
    let mut buffer = io::large_buffer();
    let mut store = [0u8; 32768];
    let mut source = Source::new(rt, &mut buffer);
    let answer = recovered(&mut source, &mut store);
    source.outcome()?;
    let mut out = Output::new();
    print(answer, &store, &mut out);
    streams::write(&mut streams::stdout(rt), out.as_slice())
}

fn main(rt: HostRuntime) -> ExitCode {
    streams::end(rt, run(rt))
}
