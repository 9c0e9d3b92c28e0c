// What the program writes.
use crate::reading::{Asked, Shows};
use ids::{Lsn, Refusal};
use readers::SoundStorage;
use shown::Shown;
use std::io::Write;
use storage::RecoveredRaftStorage;
use streams::Failed;
use tables::Output;
use text::command::Commands;

pub fn print_malformed(to: &mut impl Write, line: u64) -> Result<(), Failed> {
    let mut out = Output::new();
    tables::write_malformed(line, &mut out);
    streams::write(to, out.as_slice())
}

pub fn print_journal_refused(to: &mut impl Write, lsn: Lsn, why: Refusal) -> Result<(), Failed> {
    let mut out = Output::new();
    batch_tables::write_journal_refused(lsn.0, why.number(), &mut out);
    streams::write(to, out.as_slice())
}

fn is_of_batch(at: Option<Shown>) -> bool {
    match at {
        Some(Shown::OfBatch { .. }) => true,
        _ => false,
    }
}

// A recovered state with its store, what is asked of it, and the commands that were given.
#[derive(Clone, Copy)]
struct Answer<'a> {
    state: &'a RecoveredRaftStorage,
    store: &'a [u8],
    asked: &'a Asked,
    commands: &'a Commands,
}

impl<'a> Answer<'a> {
    fn print_prepared(&self, to: &mut impl Write) -> Result<(), Failed> {
        let commands = self.commands;
        let batch = self.asked.given.batch();
        let prepared = lent::prepare_batch(
            *self.state,
            self.store,
            self.asked.identity,
            batch.snapshot,
            batch.entries,
            batch.hard_state,
            &commands.bytes,
        );
        let mut out = Output::new();
        batch_tables::write_prepared(
            &prepared,
            commands.count,
            &commands.lens,
            &commands.bytes,
            &mut out,
        );
        streams::write(to, out.as_slice())
    }

    fn print_shown(&self, to: &mut impl Write, index: u64) -> Result<(), Failed> {
        let state = *self.state;
        let identity = self.asked.identity;
        let batch = self.asked.given.batch();
        let lent = &self.commands.bytes;
        let at = shown::previewed_at(state, self.store, identity, batch, lent, index);
        let bytes = shown::previewed_command(state, self.store, identity, batch, lent, index);
        let mut out = Output::new();
        batch_tables::write_shown(index, is_of_batch(at), bytes, &mut out);
        streams::write(to, out.as_slice())
    }

    fn print_shows(&self, to: &mut impl Write, shows: &Shows) -> Result<(), Failed> {
        for &index in shows.as_slice() {
            self.print_shown(to, index)?;
        }
        Ok(())
    }

    // Where no minimum recovery LSN can be read there is none.
    fn print_minimum(&self, to: &mut impl Write) -> Result<(), Failed> {
        let lsn = match SoundStorage::new(self.state, self.store) {
            Ok(sound) => sound.minimum_recovery_lsn(self.asked.identity),
            Err(_) => None,
        };
        let mut out = Output::new();
        batch_tables::write_minimum(lsn, &mut out);
        streams::write(to, out.as_slice())
    }
}

// The recovery, finished where that was asked.
pub fn print_answer(
    to: &mut impl Write,
    recovered: RecoveredRaftStorage,
    asked: &Asked,
    commands: &Commands,
    store: &[u8],
    shows: &Shows,
) -> Result<(), Failed> {
    let state = if asked.finish {
        finishing::finish(recovered, store).state
    } else {
        recovered
    };
    let answer = Answer {
        state: &state,
        store,
        asked,
        commands,
    };
    answer.print_prepared(to)?;
    answer.print_shows(to, shows)?;
    answer.print_minimum(to)
}
