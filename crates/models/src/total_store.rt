// Total store order.
ghost use Rattle.models.specs.Tables.{tso};
ghost use Rattle.std.proofs.Common.{rules};

use crate::access::Access;
use crate::model::MemoryModel;
use traces::Kind;

// Stores wait in one store buffer for each thread.
#[derive(Clone, Copy)]
pub struct Tso;

impl MemoryModel for Tso {
    ghost waiting = { λ _. tso.waiting };

    ghost ahead = { λ _. tso.ahead };

    ghost prompt = { Prim.search rules };

    ghost coherent = { Prim.search rules };

    fn waits(&self, kind: Kind) -> bool {
        kind == Kind::Store
    }

    fn keeps_ahead(&self, i: Access, j: Access) -> bool {
        i.kind.reads() || i.both_write(j) || i.either_syncs(j)
    }
}
