// Which model is at least as strict as which.
ghost use Rattle.std.specs.Prelude.{◌≡◌, true, not, ◌||◌};
ghost use Rattle.models.specs.Meaning.{tables_of};
ghost use Rattle.models.specs.Standard.{standard};
ghost use Rattle.models.specs.Tables.{AtLeastAsStrict};
ghost use Rattle.models.specs.declared.name.ModelName.TheVariants.{Pso as PsoName, Rmo as RmoName, Sc as ScName, Tso as TsoName};

use crate::access::Access;
use crate::model::MemoryModel;
use crate::partial_store::Pso;
use crate::relaxed::Rmo;
use crate::sequential::Sc;
use crate::total_store::Tso;

// Whether the first model keeps i ahead of j if the second does: so it is wherever the first is at least as strict.
pub fn at_least_as_strict_at<M: MemoryModel, N: MemoryModel>(
    first: &M,
    second: &N,
    i: Access,
    j: Access,
) -> bool
    ensures pair { result ≡ (not (N.ahead second.now i j) || M.ahead first.now i j) }
    ensures strict { AtLeastAsStrict (tables_of M.MemoryModel first.now) (tables_of N.MemoryModel second.now) → result ≡ true }
{
    !second.keeps_ahead(i, j) || first.keeps_ahead(i, j)
}

// The four models of the field, each at least as strict as the next.
pub fn standard_models() -> (Sc, Tso, Pso, Rmo)
    ensures named { (tables_of ⟦<Sc as MemoryModel>⟧ result.0 ≡ standard ScName) × (tables_of ⟦<Tso as MemoryModel>⟧ result.1 ≡ standard TsoName) × (tables_of ⟦<Pso as MemoryModel>⟧ result.2 ≡ standard PsoName) × (tables_of ⟦<Rmo as MemoryModel>⟧ result.3 ≡ standard RmoName) }
    ensures first { AtLeastAsStrict (tables_of ⟦<Sc as MemoryModel>⟧ result.0) (tables_of ⟦<Tso as MemoryModel>⟧ result.1) }
    ensures second { AtLeastAsStrict (tables_of ⟦<Tso as MemoryModel>⟧ result.1) (tables_of ⟦<Pso as MemoryModel>⟧ result.2) }
    ensures third { AtLeastAsStrict (tables_of ⟦<Pso as MemoryModel>⟧ result.2) (tables_of ⟦<Rmo as MemoryModel>⟧ result.3) }
{
    (Sc, Tso, Pso, Rmo)
}
