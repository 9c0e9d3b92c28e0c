// Finishing: each held replica's hard state is raised to the largest of its terms.
#![tactic(auto)]

ghost use Rattle.std.specs.Prelude.{◌≡◌};
ghost use Rattle.storage.specs.Model.{finished_storage};
ghost use Rattle.soundness.specs.Sound.{Limits};
ghost use Rattle.finishing.specs.Finishes.{Finishes};

use ids::Refusal;
use storage::RecoveredRaftStorage;

// The answer, and the state after it. Beside recovery's Observed: the answer is of another type, and one struct over it is no plainer.
#[derive(Clone, Copy, Debug, PartialEq, Eq)]
pub struct Finished {
    pub answer: Result<(), Refusal>,
    pub state: RecoveredRaftStorage,
}

// Every held replica is finished: its hard state is raised to the largest of its boundary's term and its entries' terms.
// By place: a header with its 64 entries.
fn finish_all(state: RecoveredRaftStorage) -> RecoveredRaftStorage
    requires { Limits state }
    ensures { result ≡ finished_storage state }
{
    let mut t = state;
    for j in 0..state.held {
        let head = t.heads[j];
        let m = head.maximum_term(&t.entries[64 * j..64 * j + 64]);
        t.heads[j] = head.normalize_hard_state_term(m);
    }
    t
}

// Finishing of a state and the store that is lent beside it, of which no byte changes. By value: the state goes on.
pub fn finish(state: RecoveredRaftStorage, store: &[u8]) -> Finished
    ensures { Finishes state store.now result }
{
    if !soundness::is_sound(&state, store) {
        return Finished {
            answer: Err(Refusal::Unsound),
            state,
        };
    }
    Finished {
        answer: Ok(()),
        state: finish_all(state),
    }
}
