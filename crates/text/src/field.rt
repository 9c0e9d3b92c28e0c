// One field of a line, as its bytes come: what number and what word it is, and what checksum.
#![tactic(auto, using(crate::proofs::Lines::drop_end), unfolding(crate::specs::Text::hex_digit, crate::specs::Field::pushed_field, crate::specs::Field::pushed_sum, crate::specs::Field::up_to_space, crate::specs::Field::fed_field, crate::specs::Field::fed_sum))]

ghost use Rattle.std.specs.Prelude.{◌≡◌, ◌<◌, length};
ghost use Rattle.text.specs.Field.{hex_of, pushed_digit, pushed_field, up_to_space, fed_field, shifted_checksum, pushed_sum, fed_sum, blank_field, blank_sum, number_on, version_on, word_field, vote_on, checksum_on};

use codec::Checksum;
use ids::ReplicaId;

// What a field is so far.
#[derive(Clone, Copy, Debug, PartialEq, Eq)]
pub struct Field {
    // its bytes; 17 stands for 17 and more, so the length goes past the 16 that are kept
    pub len: usize,
    // the first 16 of them
    pub word: [u8; 16],
    // its number, 0 before the first byte; none where a byte is no digit or it passes 2^64 - 1
    pub number: Option<u64>,
}

// What a field is as a checksum so far: the last of each 16 digits stand in d.
#[derive(Clone, Copy, Debug, PartialEq, Eq)]
pub struct Sum {
    // its bytes; 65 stands for 65 and more
    pub len: usize,
    // none where a byte is no hex digit
    pub checksum: Option<Checksum>,
}

// The number of a hex digit.
pub fn hex_digit(b: u8) -> Option<u8>
    ensures { result ≡ hex_of b }
{
    Some(char::from(b).to_digit(16)? as u8)
}

// One more digit of a decimal number.
fn with_digit(n: u64, b: u8) -> Option<u64>
    ensures { result ≡ pushed_digit n b }
{
    if !b.is_ascii_digit() {
        return None;
    }
    n.checked_mul(10)?.checked_add(u64::from(b - b'0'))
}

impl Field {
    // No byte yet.
    pub fn blank() -> Field
        ensures { result ≡ blank_field }
    {
        Field {
            len: 0,
            word: [0; 16],
            number: Some(0),
        }
    }

    // One more byte.
    pub fn push(&mut self, b: u8)
        ensures { self.new ≡ pushed_field self.old b }
    {
        if self.len < 16 {
            self.word[self.len] = b;
        }
        self.len = self.len.saturating_add(1).min(17);
        if let Some(n) = self.number {
            self.number = with_digit(n, b);
        }
    }

    // Reads on to the space or the end of the bytes: how many of them it took. Length and number stand beside the array, so that
    // they are not written and read back for each byte.
    pub fn read(&mut self, bytes: &[u8]) -> usize
        ensures field { self.new ≡ fed_field self.old (up_to_space bytes.now) }
        ensures end { result ≡ length (up_to_space bytes.now) }
    {
        let mut len = self.len;
        let mut number = self.number;
        let mut taken = 0;
        for &b in bytes {
            if b == b' ' {
                break;
            }
            if len < 16 {
                self.word[len] = b;
                len += 1;
            } else {
                len = 17;
            }
            if let Some(n) = number {
                number = with_digit(n, b);
            }
            taken += 1;
        }
        self.len = len;
        self.number = number;
        taken
    }

    // The number that it is, up to 2^64 - 1.
    pub fn number(&self) -> Option<u64>
        ensures { result ≡ number_on self.now }
    {
        if self.len == 0 {
            return None;
        }
        self.number
    }

    // A record's version: a number up to 2^32 - 1.
    pub fn version(&self) -> Option<u32>
        ensures { result ≡ version_on self.now }
    {
        u32::try_from(self.number()?).ok()
    }

    // Whether it is this word, of at most 16 bytes.
    pub fn is_word(&self, word: &[u8]) -> bool
        ensures { result ≡ word_field self.now word.now }
    {
        self.len == word.len() && self.word.starts_with(word)
    }

    // '-' for no vote, or a replica.
    pub fn vote(&self) -> Option<Option<ReplicaId>>
        ensures { result ≡ vote_on self.now }
    {
        if self.is_word(b"-") {
            return Some(None);
        }
        Some(Some(ReplicaId(self.number()?)))
    }
}

// One more digit: a 17th pushes the numbers on by one.
fn shifted(sum: Checksum, len: usize, digit: u64) -> Checksum
    requires { digit < 16 }
    ensures { result ≡ shifted_checksum len sum digit }
{
    if len % 16 == 0 {
        return Checksum {
            a: sum.b,
            b: sum.c,
            c: sum.d,
            d: digit,
        };
    }
    Checksum {
        d: sum.d % 0x1000_0000_0000_0000 * 16 + digit,
        ..sum
    }
}

impl Sum {
    // No byte yet.
    pub fn blank() -> Sum
        ensures { result ≡ blank_sum }
    {
        Sum {
            len: 0,
            checksum: Some(Checksum {
                a: 0,
                b: 0,
                c: 0,
                d: 0,
            }),
        }
    }

    // One more byte.
    pub fn push(&mut self, b: u8)
        ensures { self.new ≡ pushed_sum self.old b }
    {
        self.checksum = match (self.checksum, hex_digit(b)) {
            (Some(sum), Some(digit)) => Some(shifted(sum, self.len, u64::from(digit))),
            _ => None,
        };
        self.len = self.len.saturating_add(1).min(65);
    }

    // More bytes.
    pub fn read(&mut self, bytes: &[u8])
        ensures { self.new ≡ fed_sum self.old bytes.now }
    {
        for &b in bytes {
            self.push(b);
        }
    }

    // The checksum that it is: 64 digits.
    pub fn checksum(&self) -> Option<Checksum>
        ensures { result ≡ checksum_on self.now }
    {
        if self.len != 64 {
            return None;
        }
        self.checksum
    }
}
