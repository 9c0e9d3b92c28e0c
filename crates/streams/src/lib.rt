// Standard input and output as the programs use them: a call that was interrupted, or that would have to wait, is made again, and the end
// of the input is told apart from a read that failed.
#![tactic(auto)]

ghost use Rattle.std.specs.Prelude.{◌≡◌, ◌≢◌, IsTrue, ◌↔◌, ◌⊎◌, OnOk, IfErr};
ghost use Rattle.std.specs.IoError.{error_kind};
ghost use Rattle.std.specs.Io.{ReadsAtMost, WritesAtMost};
ghost use Rattle.std.specs.Io.KnownBytes.{ReadConsumes, WriteAppends, Appends};
ghost use Rattle.std.specs.Process.{exit_status};
ghost use Rattle.streams.specs.declared.Failed.TheVariants.{Output};
ghost use Rattle.streams.specs.Streams.{status_of};

use std::io::{ErrorKind, Read, Write};
use std::process::ExitCode;
use std::rt::{Stdin, Stdout};
use std::time::{Clock, Duration};
use std::{io, thread};

// A stream whose calls are made again where they were interrupted and, after a pause, where the stream does not block and is not ready.
#[derive(Drop)]
pub struct Retrying<S, C> {
    stream: S,
    clock: C,
}

// Which stream failed.
#[derive(Clone, Copy, Debug, PartialEq, Eq)]
pub enum Failed {
    Input,
    Output,
}

impl<S, C: Clock> Retrying<S, C> {
    pub fn new(stream: S, clock: C) -> Retrying<S, C>
        ensures { result ≡ record { stream = stream; clock = clock } }
    {
        Retrying { stream, clock }
    }

    // Whether a call that failed so is made again.
    fn again(&self, why: io::Error) -> bool
        ensures { IsTrue result ↔ ((error_kind why ≡ ErrorKind.Interrupted) ⊎ (error_kind why ≡ ErrorKind.WouldBlock)) }
    {
        match why.kind() {
            ErrorKind::Interrupted => true,
            ErrorKind::WouldBlock => {
                thread::sleep(&self.clock, Duration::from_millis(1));
                true
            }
            _ => false,
        }
    }
}

// A proved loop has to end: turns are counted down from a number that no run uses up.
impl<R: Read, C: Clock> Read for Retrying<R, C> {
    ghost remaining = { λ s. R.remaining s.stream };

    fn read(&mut self, buf: &mut [u8]) -> io::Result<usize>
        ensures bound { ReadsAtMost result buf.new }
        ensures bytes { ReadConsumes (R.remaining self.old.stream) (R.remaining self.new.stream) result buf.new }
        ensures lasting { IfErr result (λ e. (error_kind e ≢ ErrorKind.Interrupted) × (error_kind e ≢ ErrorKind.WouldBlock)) }
    {
        for _ in 0..u64::MAX {
            match self.stream.read(buf) {
                Ok(n) => return Ok(n),
                Err(why) => {
                    if !self.again(why) {
                        return Err(why);
                    }
                }
            }
        }
        Err(ErrorKind::TimedOut.into())
    }
}

impl<W: Write, C: Clock> Write for Retrying<W, C> {
    ghost contents = { λ s. W.contents s.stream };

    fn write(&mut self, buf: &[u8]) -> io::Result<usize>
        ensures bound { WritesAtMost result buf.now }
        ensures bytes { WriteAppends (W.contents self.old.stream) (W.contents self.new.stream) result buf.now }
        ensures lasting { IfErr result (λ e. (error_kind e ≢ ErrorKind.Interrupted) × (error_kind e ≢ ErrorKind.WouldBlock)) }
    {
        for _ in 0..u64::MAX {
            match self.stream.write(buf) {
                Ok(n) => return Ok(n),
                Err(why) => {
                    if !self.again(why) {
                        return Err(why);
                    }
                }
            }
        }
        Err(ErrorKind::TimedOut.into())
    }

    fn flush(&mut self) -> io::Result<()> {
        self.stream.flush()
    }
}

// No contract says which bytes come or go.
pub fn stdin(rt: HostRuntime) -> Retrying<Stdin, HostRuntime> {
    Retrying::new(rt.stdin(), rt)
}

pub fn stdout(rt: HostRuntime) -> Retrying<Stdout, HostRuntime> {
    Retrying::new(rt.stdout(), rt)
}

// All of the bytes, or the output failed, and some may be written.
pub fn write<W: Write>(to: &mut W, bytes: &[u8]) -> Result<(), Failed>
    ensures bytes { OnOk result (Appends (W.contents to.old) (W.contents to.new) bytes.now) }
    ensures failed { IfErr result (λ f. f ≡ Output) }
{
    to.write_all(bytes).or(Err(Failed::Output))
}

// What a program ends with: status 1 where a stream failed, and then `input failed` on standard output, or `output failed` on standard
// error.
pub fn end(rt: HostRuntime, ran: Result<(), Failed>) -> ExitCode
    ensures { exit_status result ≡ status_of ran }
{
    let told = match ran {
        Err(Failed::Input) => write(&mut stdout(rt), b"input failed\n"),
        _ => ran,
    };
    if told == Err(Failed::Output) {
        // Nothing is left to tell that this failed too.
        let _ = eprintln!(rt; "output failed");
    }
    ExitCode::from(ran.is_err() as u8)
}
