// Relaxed memory order.
ghost use Rattle.models.specs.Tables.{rmo};
ghost use Rattle.std.proofs.Common.{rules};

use crate::access::Access;
use crate::model::MemoryModel;
use traces::Kind;

// All but syncs wait. Only a later write of the same address, and syncs, keep a sequence.
#[derive(Clone, Copy)]
pub struct Rmo;

impl MemoryModel for Rmo {
    ghost waiting = { λ _. rmo.waiting };

    ghost ahead = { λ _. rmo.ahead };

    ghost prompt = { Prim.search rules };

    ghost coherent = { Prim.search rules };

    fn waits(&self, kind: Kind) -> bool {
        kind != Kind::Sync
    }

    fn keeps_ahead(&self, i: Access, j: Access) -> bool {
        j.kind.writes() && i.is_on_same_address(j) || i.either_syncs(j)
    }
}
