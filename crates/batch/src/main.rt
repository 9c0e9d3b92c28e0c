// A journal on standard input, then one batch; on standard output what preparing the batch on the recovered state answers, the commands
// shown, and the minimum recovery LSN; or why the journal or a line was not taken. Nothing is written before all lines were read.
#![tactic(auto)]

mod printing;
mod reading;

use arrayvec::ArrayVec;
use journal::input::Source;
use journal::{Recovered, Stop};
use std::io::Write;
use std::process::ExitCode;
use streams::Failed;
use text::command::Commands;

// Behind the journal: the batch.
fn answer(
    to: &mut impl Write,
    source: &mut Source,
    recovered: Recovered,
    commands: &Commands,
    store: &[u8],
) -> Result<(), Failed> {
    let mut shows = ArrayVec::new();
    let asked = reading::read_batch(source, recovered.line, commands.lens(), &mut shows);
    source.outcome()?;
    match asked {
        Err(line) => printing::print_malformed(to, line),
        Ok(asked) => printing::print_answer(to, recovered.state, &asked, commands, store, &shows),
    }
}

fn run(rt: HostRuntime) -> Result<(), Failed> {
    let mut buffer = io::large_buffer();
    let mut commands = Commands::none();
    let mut store = [0u8; 32768];
    let mut source = Source::new(rt, &mut buffer);
    let recovered = journal::recover(&mut source, &mut commands, &mut store);
    source.outcome()?;
    let mut to = streams::stdout(rt);
    match recovered {
        Err(Stop::Malformed(line)) => printing::print_malformed(&mut to, line),
        Err(Stop::Refused { lsn, why }) => printing::print_journal_refused(&mut to, lsn, why),
        Ok(recovered) => answer(&mut to, &mut source, recovered, &commands, &store),
    }
}

fn main(rt: HostRuntime) -> ExitCode {
    streams::end(rt, run(rt))
}
