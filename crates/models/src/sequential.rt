// Sequential consistency.
ghost use Rattle.models.specs.Tables.{sc};
ghost use Rattle.std.proofs.Common.{rules};

use crate::access::Access;
use crate::model::MemoryModel;
use traces::Kind;

// Every instruction takes effect in the sequence of its thread.
#[derive(Clone, Copy)]
pub struct Sc;

impl MemoryModel for Sc {
    ghost waiting = { λ _. sc.waiting };

    ghost ahead = { λ _. sc.ahead };

    ghost prompt = { Prim.search rules };

    ghost coherent = { Prim.search rules };

    fn waits(&self, kind: Kind) -> bool {
        false
    }

    fn keeps_ahead(&self, i: Access, j: Access) -> bool {
        true
    }
}
