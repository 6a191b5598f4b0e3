// Partial store order.
ghost use Rattle.models.specs.Tables.{pso};
ghost use Rattle.std.proofs.Common.{rules};

use crate::access::Access;
use crate::model::MemoryModel;
use traces::Kind;

// Stores wait, and those to different addresses may overtake each other.
#[derive(Clone, Copy)]
pub struct Pso;

impl MemoryModel for Pso {
    ghost waiting = { λ _. pso.waiting };

    ghost ahead = { λ _. pso.ahead };

    ghost prompt = { Prim.search rules };

    ghost coherent = { Prim.search rules };

    fn waits(&self, kind: Kind) -> bool {
        kind == Kind::Store
    }

    fn keeps_ahead(&self, i: Access, j: Access) -> bool {
        i.kind.reads() || i.both_write(j) && i.is_on_same_address(j) || i.either_syncs(j)
    }
}
