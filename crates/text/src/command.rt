// One command line, in pieces of any size: its bytes go where they are kept as they are read. And the commands that were given.
#![tactic(auto, using(crate::proofs::Lines::end_within, crate::proofs::Lines::piece_is, crate::proofs::Lines::drop_end), unfolding(crate::specs::Command::pushed_command, crate::specs::Command::pushed_out, crate::specs::Command::fed_command, crate::specs::Command::fed_out, crate::specs::Command::len_of))]

ghost use Rattle.std.specs.Prelude.{◌≡◌, ◌≤◌, IfSome, take};
ghost use Rattle.text.specs.Line.{piece, taken};
ghost use Rattle.text.specs.Record.{at_most256};
ghost use Rattle.text.specs.Command.{blank_command, pushed_command, pushed_out, fed_command, fed_out, len_of};

use crate::{field, line};

// What a command line is so far.
#[derive(Clone, Copy, Debug, PartialEq, Eq)]
pub struct Command {
    // its bytes; 131 stands for 131 and more
    pub digits: usize,
    // the last digit
    pub half: u8,
    // whether it has hex digits only; a flag, since the contract says what the other fields are of a line that has others too
    pub hex: bool,
}

impl Command {
    // No byte yet.
    pub fn blank() -> Command
        ensures { result ≡ blank_command }
    {
        Command {
            digits: 0,
            half: 0,
            hex: true,
        }
    }

    // One more byte. The second digit of a pair writes its byte, where 65 bytes have room.
    fn push(&mut self, b: u8, out: &mut [u8])
        ensures command { self.new ≡ pushed_command self.old b }
        ensures out { out.new ≡ pushed_out out.old 0 self.old b }
    {
        match field::hex_digit(b) {
            None => self.hex = false,
            Some(digit) => {
                if self.digits % 2 != 0 && self.digits < 130 && 65 <= out.len() {
                    out[self.digits / 2] = self.half % 16 * 16 + digit;
                }
                self.half = digit;
            }
        }
        self.digits = self.digits.saturating_add(1).min(131);
    }

    // Reads on to the newline or the end of the bytes: how many of them it took with the newline, where one came. The command's
    // bytes go to the start of out.
    pub fn read(&mut self, bytes: &[u8], out: &mut [u8]) -> Option<usize>
        ensures command { self.new ≡ fed_command self.old (piece bytes.now) }
        ensures out { out.new ≡ fed_out out.old 0 self.old (piece bytes.now) }
        ensures end { result ≡ taken bytes.now }
    {
        let end = line::newline_at(bytes);
        for &b in &bytes[..end.unwrap_or(bytes.len())] {
            self.push(b, out);
        }
        end.map(|i| i + 1)
    }

    // How many bytes a whole command line has, where it is one: an even number of hex digits, at most 130.
    pub fn len(&self) -> Option<usize>
        ensures value { result ≡ len_of self.now }
        ensures short { IfSome result (λ len. len ≤ 65) }
    {
        (self.hex && self.digits % 2 == 0 && self.digits <= 130).then_some(self.digits / 2)
    }
}

// The commands that are given. There is no heap to keep any number of them: 65 bytes are kept for each of 256. The bytes are lent
// as they lie, so they are an array with a count, no list of commands.
#[derive(Clone, Copy, Debug, PartialEq, Eq)]
pub struct Commands {
    pub bytes: [u8; 16640],
    // how many bytes each has
    pub lens: [u8; 256],
    // how many are given
    pub count: usize,
}

impl Commands {
    pub fn none() -> Commands
        ensures { result.count ≡ 0 }
    {
        Commands {
            bytes: [0; 16640],
            lens: [0; 256],
            count: 0,
        }
    }

    // The lengths of those that are given.
    pub fn lens(&self) -> &[u8]
        ensures { result.now ≡ take (at_most256 self.now.count) self.now.lens }
    {
        &self.lens[..self.count.min(256)]
    }
}
