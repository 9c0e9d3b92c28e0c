// The output of a program: bytes of text, one behind the other.
ghost use Rattle.std.specs.Prelude.{◌≡◌, List, ℕ, [], ◌∷◌, ◌++◌, ◌+◌, ◌-◌, ◌≤◌, take, length, Some};
ghost use Rattle.ids.specs.Identity.{identity_of};
ghost use Rattle.codec.specs.Records.{vote_of, hard_state_of};
ghost use Rattle.tables.specs.Tables.{decimal, row, vote_field, hard_fields};

use codec::HardState;
use ids::{RaftReplicaIdentity, ReplicaId};
use std::marker::Model;

// What a program prints, at most N bytes. Contracts see the text. The invariant: the text is within the bytes. (By hand: an ArrayVec
// of bytes answers each time whether they fit, which is a `requires` here.)
#[derive(Drop)]
pub struct Output<const N: usize> {
    bytes: [u8; N],
    len: usize,
}

impl<const N: usize> Model for Output<N> {
    ghost Value = { List ℕ };

    ghost view = { λ o. take o.len o.bytes };

    ghost invariant = { λ o. o.len ≤ N };
}

impl<const N: usize> Output<N> {
    pub fn new() -> Self
        ensures { result ≡ [] }
    {
        Output {
            bytes: [0; N],
            len: 0,
        }
    }

    pub fn as_slice(&self) -> &[u8]
        ensures { result.now ≡ self.now }
    {
        &self.bytes[..self.len]
    }

    // How many bytes more there is room for.
    pub fn room(&self) -> usize
        ensures { result ≡ N - length self.now }
    {
        N - self.len
    }

    pub fn clear(&mut self)
        ensures { self.new ≡ [] }
    {
        self.len = 0;
    }

    // All of `bytes`.
    #[tactic(auto, using(crate::proofs::Text::take_splice))]
    pub fn put(&mut self, bytes: &[u8])
        requires { length self.old + length bytes.now ≤ N }
        ensures { self.new ≡ self.old ++ bytes.now }
    {
        store::copy_in(&mut self.bytes, self.len, bytes);
        self.len += bytes.len();
    }

    // A number and the byte that ends it.
    pub fn put_number(&mut self, n: u64, end: u8)
        requires { length self.old + 21 ≤ N }
        ensures text { self.new ≡ self.old ++ (decimal n ++ end ∷ []) }
        ensures short { length self.new ≤ length self.old + 21 }
    {
        let mut digits = [0; 20];
        let k = io::decimal(n, &mut digits);
        self.put(&digits[..k]);
        self.put(&[end]);
    }

    // A word with a space behind it, a number, and the end of the line.
    pub fn put_count(&mut self, word: &[u8], n: usize)
        requires { length self.old + length word.now + 21 ≤ N }
        ensures text { self.new ≡ self.old ++ (word.now ++ (decimal n ++ 10 ∷ [])) }
        ensures short { length self.new ≤ length self.old + length word.now + 21 }
    {
        self.put(word);
        self.put_number(n as u64, b'\n');
    }

    // A vote, `-` for none, and a space.
    pub fn put_vote(&mut self, vote: Option<ReplicaId>)
        requires { length self.old + 21 ≤ N }
        ensures text { self.new ≡ self.old ++ (vote_field (vote_of vote) ++ 32 ∷ []) }
        ensures short { length self.new ≤ length self.old + 21 }
    {
        match vote {
            None => self.put(b"- "),
            Some(replica) => self.put_number(replica.0, b' '),
        }
    }

    // Term, vote and commit, and the end of the line.
    #[tactic(auto, unfolding(crate::specs::Tables::row))]
    pub fn put_hard_state(&mut self, hard_state: HardState)
        requires { length self.old + 63 ≤ N }
        ensures text { self.new ≡ self.old ++ row (hard_fields (hard_state_of hard_state)) }
        ensures short { length self.new ≤ length self.old + 63 }
    {
        self.put_number(hard_state.current_term, b' ');
        self.put_vote(hard_state.voted_for);
        self.put_number(hard_state.commit, b'\n');
    }

    // Group and replica, a space behind each.
    pub fn put_identity(&mut self, identity: RaftReplicaIdentity)
        requires { length self.old + 42 ≤ N }
        ensures text { self.new ≡ self.old ++ ((decimal (identity_of identity).group ++ 32 ∷ []) ++ (decimal (identity_of identity).replica ++ 32 ∷ [])) }
        ensures short { length self.new ≤ length self.old + 42 }
    {
        self.put_number(identity.raft_group_id.0, b' ');
        self.put_number(identity.replica_id.0, b' ');
    }
}
