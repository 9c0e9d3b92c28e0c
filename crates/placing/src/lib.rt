// A place is opened for a replica that is not held: in the arrays of a state and in its store.
#![tactic(auto)]

ghost use Rattle.std.specs.Prelude.{◌≡◌};
ghost use Rattle.view.specs.Model.{empty_header};
ghost use Rattle.storage.specs.Model.{opened, opened_store};
ghost use Rattle.placing.specs.Opens.{Opens};

use ids::RaftReplicaIdentity;
use storage::RecoveredRaftStorage;
use view::Header;

// A place is opened at p for a replica that is not held: the others from p on move up.
#[tactic(auto, using(crate::proofs::Written::put_before, store::proofs::Part::pasted))]
pub fn open_place(
    t: &mut RecoveredRaftStorage,
    store: &mut [u8],
    p: usize,
    identity: RaftReplicaIdentity,
)
    requires { Opens t.old store.old p }
    ensures state { t.new ≡ opened t.old p (empty_header identity) }
    ensures store { store.new ≡ opened_store store.old p t.old.held }
{
    let held = t.held;
    store::open_block(store, p, held);
    t.heads.copy_within(p..held, p + 1);
    t.entries.copy_within(64 * p..64 * held, 64 * (p + 1));
    t.heads[p] = Header::new(identity);
    t.held = held + 1;
}
