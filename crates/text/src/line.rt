// One line, in pieces of any size.
#![tactic(auto, using(crate::proofs::Lines::end_within, crate::proofs::Lines::field_within, crate::proofs::Lines::take_field), unfolding(crate::specs::Line::closed))]

ghost use Rattle.std.specs.Prelude.{◌≡◌, length};
ghost use Rattle.text.specs.Field.{up_to_space};
ghost use Rattle.text.specs.Line.{blank_line, closed, extended_by, fed, piece, newline_at, taken};

use crate::field::{Field, Sum};

// What a line is so far. A line has as many fields as it likes; there is no heap to keep them all, and no form has more than 12.
// An array with a count: a field that is not there reads as the blank one, and the count goes past the 12.
#[derive(Clone, Copy, Debug, PartialEq, Eq)]
pub struct Line {
    // the closed fields
    pub fields: [Field; 12],
    // how many are closed; 13 stands for 13 and more
    pub count: usize,
    // the open one
    pub field: Field,
    // the open one as a checksum, from the 11th on
    pub sum: Sum,
}

// Where the first newline stands.
pub fn newline_at(bytes: &[u8]) -> Option<usize>
    ensures { result ≡ newline_at bytes.now }
{
    bytes.iter().position(|&b| b == b'\n')
}

impl Line {
    // No byte yet.
    pub fn blank() -> Line
        ensures { result ≡ blank_line }
    {
        Line {
            fields: [Field::blank(); 12],
            count: 0,
            field: Field::blank(),
            sum: Sum::blank(),
        }
    }

    // The open field ends.
    fn close(&mut self)
        ensures { self.new ≡ closed self.old }
    {
        if self.count < 12 {
            self.fields[self.count] = self.field;
        }
        if 10 <= self.count {
            self.sum = Sum::blank();
        }
        self.count = self.count.saturating_add(1).min(13);
        self.field = Field::blank();
    }

    // The open field goes on, up to the space or the end of the bytes: how many of them it took.
    fn extend(&mut self, bytes: &[u8]) -> usize
        ensures line { self.new ≡ extended_by self.old (up_to_space bytes.now) }
        ensures end { result ≡ length (up_to_space bytes.now) }
    {
        let n = self.field.read(bytes);
        if 10 <= self.count {
            self.sum.read(&bytes[..n]);
        }
        n
    }

    // Reads on to the newline or the end of the bytes: how many of them it took with the newline, where one came.
    pub fn read(&mut self, bytes: &[u8]) -> Option<usize>
        ensures line { self.new ≡ fed self.old (piece bytes.now) }
        ensures end { result ≡ taken bytes.now }
    {
        let end = newline_at(bytes);
        let mut rest = &bytes[..end.unwrap_or(bytes.len())];
        let mut n = self.extend(rest);
        // No `for`: each field says where the next one begins.
        while n < rest.len() {
            self.close();
            rest = &rest[n + 1..];
            n = self.extend(rest);
        }
        end.map(|i| i + 1)
    }
}
