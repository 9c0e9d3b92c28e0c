// Standard input in pieces: the next line, the next command, the next record.
ghost use Rattle.std.specs.Prelude.{◌≡◌, ◌≤◌, IfSome, Err};
ghost use Rattle.streams.specs.declared.Failed.TheVariants.{Input};

use codec::WalRecord;
use std::io::{Read, Stdin};
use streams::{Failed, Retrying};
use text::command::Command;
use text::line::Line;
use text::record;

// Standard input through a buffer. Behind a read that failed nothing more is read, and that it failed is kept: who answers asks
// `outcome` first. The library's BufReader asks for a heap.
#[derive(Drop)]
pub struct Source<'a> {
    stdin: Retrying<Stdin, HostRuntime>,
    buffer: &'a mut [u8],
    // what was read and not yet used: the bytes of the buffer from `at` up to `len`
    at: usize,
    len: usize,
    outcome: Result<(), Failed>,
}

impl<'a> Source<'a> {
    // Nothing was read yet.
    pub fn new(rt: HostRuntime, buffer: &'a mut [u8]) -> Source<'a>
        ensures nothing { (result.at ≡ 0) × (result.len ≡ 0) }
        ensures outcome { result.outcome ≡ (Ok tt) }
    {
        Source {
            stdin: streams::stdin(rt),
            buffer,
            at: 0,
            len: 0,
            outcome: Ok(()),
        }
    }

    // Whether every read so far brought bytes or the input's end.
    pub fn outcome(&self) -> Result<(), Failed>
        ensures { result ≡ self.now.outcome }
    {
        self.outcome
    }

    // What was read and not yet used.
    fn unused(&self) -> &[u8] {
        self.buffer.get(self.at..self.len).unwrap_or(&[])
    }

    // Reads until the buffer is full, the input ends or a read fails: whether a byte came.
    fn refill(&mut self) -> bool
        ensures kept { self.old.outcome ≡ Err Input → self.new.outcome ≡ Err Input }
    {
        self.at = 0;
        self.len = 0;
        if self.outcome.is_err() {
            return false;
        }
        // No `for`: a read brings any number of bytes.
        while self.len < self.buffer.len() {
            match self.stdin.read(&mut self.buffer[self.len..]) {
                Ok(0) => break,
                Ok(n) => self.len += n,
                Err(_) => {
                    self.outcome = Err(Failed::Input);
                    break;
                }
            }
        }
        self.len > 0
    }

    // Gives the bytes of the next line to `read`, in pieces, until it says how many of them the line took with its newline: whether a
    // line stood there. The last one may lack its newline; nothing behind a newline is no line. A proved loop has to end: no run uses
    // up so many turns.
    fn next<F: FnMut(&[u8]) -> Option<usize>>(&mut self, mut read: F) -> bool
        requires { F.IsAlwaysCallable read }
        ensures kept { self.old.outcome ≡ Err Input → self.new.outcome ≡ Err Input }
    {
        let mut found = false;
        for _ in 0..u64::MAX {
            if let Some(n) = read(self.unused()) {
                self.at = self.at.saturating_add(n);
                return true;
            }
            if self.at < self.len {
                found = true;
            }
            if !self.refill() {
                break;
            }
        }
        found
    }

    // The next line, where there is one. No contract says which; that a read failed is never forgotten.
    pub fn next_line(&mut self) -> Option<Line>
        ensures kept { self.old.outcome ≡ Err Input → self.new.outcome ≡ Err Input }
    {
        let mut line = Line::blank();
        self.next(|bytes| line.read(bytes)).then_some(line)
    }

    // The next line as a record; none where it is missing or cannot be read.
    pub fn next_record(&mut self, lens: &[u8]) -> Option<WalRecord>
        ensures kept { self.old.outcome ≡ Err Input → self.new.outcome ≡ Err Input }
    {
        record::record_of(&self.next_line()?, lens)
    }

    // The length of the next line as a command; none where it is missing or cannot be read. Its bytes go to the start of `out`. An
    // empty line is the empty command.
    pub fn next_command(&mut self, out: &mut [u8]) -> Option<usize>
        ensures short { IfSome result (λ len. len ≤ 65) }
        ensures kept { self.old.outcome ≡ Err Input → self.new.outcome ≡ Err Input }
    {
        let mut command = Command::blank();
        if !self.next(|bytes| command.read(bytes, out)) {
            return None;
        }
        command.len()
    }
}
