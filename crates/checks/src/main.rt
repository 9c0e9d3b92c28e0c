// Answers the checks that stand alone, a question a line, by 'ok', 'refused NUMBER' or 'malformed'.
//   progress INDEX TERM APPLIED
//   progress-next INDEX TERM APPLIED INDEX TERM APPLIED      the new one, then the one before
//   hard TERM VOTE COMMIT [TERM VOTE COMMIT]                 the same; '-' for no vote
//   pointer FIELDS / FIELDS|-                                the same; ten fields, from version to checksum
#![tactic(auto)]

use codec::{HardState, RaftSnapshotPointerRecord};
use frontier::RaftProgress;
use ids::Refusal;
use std::io;
use std::io::{Read, Write};
use std::process::ExitCode;
use streams::Failed;
use text::field::{Field, Sum};
use text::record;

// What a check of a line says; none where the line is malformed.
type Answer = Option<Result<(), Refusal>>;

// One field of a line, also as a checksum.
#[derive(Clone, Copy, Debug, PartialEq, Eq)]
struct Part {
    field: Field,
    sum: Sum,
}

// A line so far. Not text's Line: more fields, and each is read as a checksum too.
#[derive(Clone, Copy, Debug, PartialEq, Eq)]
struct Line {
    // the closed fields, of which no question has more than 22; an array, since the count goes past it
    fields: [Part; 22],
    // how many are closed; 23 stands for 23 and more
    count: usize,
    // the open one; none before the line's first byte
    current: Option<Part>,
}

impl Part {
    fn blank() -> Part {
        Part {
            field: Field::blank(),
            sum: Sum::blank(),
        }
    }

    // One more byte.
    fn push(&mut self, b: u8) {
        self.field.push(b);
        self.sum.push(b);
    }
}

impl Line {
    fn blank() -> Line {
        Line {
            fields: [Part::blank(); 22],
            count: 0,
            current: None,
        }
    }

    // The open field ends.
    fn close(&mut self) {
        if self.count < 22 {
            self.fields[self.count] = self.current.unwrap_or(Part::blank());
        }
        self.count = self.count.saturating_add(1).min(23);
        self.current = Some(Part::blank());
    }

    // One more byte.
    fn push(&mut self, b: u8) {
        if b == b' ' {
            self.close();
            return;
        }
        let mut part = self.current.unwrap_or(Part::blank());
        part.push(b);
        self.current = Some(part);
    }
}

fn progress_of(fields: &[Part]) -> Option<RaftProgress> {
    let [index, term, applied] = fields else {
        return None;
    };
    Some(RaftProgress {
        truncated_through_index: index.field.number()?,
        truncated_through_term: term.field.number()?,
        applied_index: applied.field.number()?,
    })
}

fn hard_state_of(fields: &[Part]) -> Option<HardState> {
    let [term, vote, commit] = fields else {
        return None;
    };
    record::hard_state_of(&term.field, &vote.field, &commit.field)
}

fn pointer_of(fields: &[Part]) -> Option<RaftSnapshotPointerRecord> {
    let [
        version,
        group,
        replica,
        id,
        index,
        term,
        applied,
        size,
        rest,
        checksum,
    ] = fields
    else {
        return None;
    };
    Some(RaftSnapshotPointerRecord {
        format_version: version.field.version()?,
        identity: record::identity_of(&group.field, &replica.field)?,
        snapshot_id: id.field.number()?,
        last_included_index: index.field.number()?,
        last_included_term: term.field.number()?,
        applied_index: applied.field.number()?,
        size_bytes: size.field.number()?,
        rest: rest.field.number()?,
        checksum: checksum.sum.checksum()?,
    })
}

fn answer_progress(fields: &[Part]) -> Answer {
    let p = progress_of(fields)?;
    let made = RaftProgress::new(
        p.truncated_through_index,
        p.truncated_through_term,
        p.applied_index,
    );
    Some(made.and_then(|progress| progress.validate()))
}

fn answer_progress_next(fields: &[Part]) -> Answer {
    let (new, previous) = fields.split_at_checked(3)?;
    Some(progress_of(new)?.validate_successor(progress_of(previous)?))
}

fn answer_hard(fields: &[Part]) -> Answer {
    let (new, rest) = fields.split_at_checked(3)?;
    let previous = match rest {
        [] => None,
        _ => Some(hard_state_of(rest)?),
    };
    Some(codec::validate_hard_state_successor(previous, hard_state_of(new)?))
}

fn answer_pointer(fields: &[Part]) -> Answer {
    let (new, rest) = fields.split_at_checked(10)?;
    let [slash, rest @ ..] = rest else {
        return None;
    };
    if !slash.field.is_word(b"/") {
        return None;
    }
    let previous = match rest {
        [dash] if dash.field.is_word(b"-") => None,
        _ => Some(pointer_of(rest)?),
    };
    Some(codec::validate_snapshot_successor(previous, pointer_of(new)?))
}

fn answer(line: &Line) -> Answer {
    let [word, fields @ ..] = line.fields.get(..line.count)? else {
        return None;
    };
    if word.field.is_word(b"progress") {
        answer_progress(fields)
    } else if word.field.is_word(b"progress-next") {
        answer_progress_next(fields)
    } else if word.field.is_word(b"hard") {
        answer_hard(fields)
    } else if word.field.is_word(b"pointer") {
        answer_pointer(fields)
    } else {
        None
    }
}

fn print(to: &mut impl Write, answer: Answer) -> io::Result<()> {
    match answer {
        None => writeln!(to, "malformed"),
        Some(Ok(())) => writeln!(to, "ok"),
        Some(Err(why)) => writeln!(to, "refused {}", why.number()),
    }
}

// The line ends, and is answered.
fn end_line(to: &mut impl Write, line: &mut Line) -> Result<(), Failed> {
    line.close();
    print(to, answer(line)).or(Err(Failed::Output))?;
    *line = Line::blank();
    Ok(())
}

fn read_bytes(to: &mut impl Write, line: &mut Line, bytes: &[u8]) -> Result<(), Failed> {
    for &b in bytes {
        if b == b'\n' {
            end_line(to, line)?;
        } else {
            line.push(b);
        }
    }
    Ok(())
}

// One read of standard input: how many bytes it gave.
fn read_some(to: &mut impl Write, stdin: &mut impl Read, line: &mut Line) -> Result<usize, Failed> {
    let mut buf = [0u8; 4096];
    let n = stdin.read(&mut buf).or(Err(Failed::Input))?;
    read_bytes(to, line, &buf[..n])?;
    Ok(n)
}

// All of standard input. A proved loop has to end: no run uses up so many turns.
fn read_all(to: &mut impl Write, stdin: &mut impl Read) -> Result<(), Failed> {
    let mut line = Line::blank();
    for _ in 0..u64::MAX {
        if read_some(to, stdin, &mut line)? == 0 {
            break;
        }
    }
    if line.current.is_some() {
        end_line(to, &mut line)?;
    }
    Ok(())
}

fn main(rt: HostRuntime) -> ExitCode {
    streams::end(
        rt,
        read_all(&mut streams::stdout(rt), &mut streams::stdin(rt)),
    )
}
