// The four models by their numbers, and which of them is at least as strict as which.
ghost use Rattle.std.specs.Prelude.{◌≡◌, true, ◌↔◌, nat_le};
ghost use Rattle.models.specs.Standard.{known_model, model_number, standard};
ghost use Rattle.models.specs.Tables.{AtLeastAsStrict};

use crate::name::{ModelName, UnknownModel};

// The model that a number stands for, if there is one.
impl TryFrom<u64> for ModelName {
    type Error = UnknownModel;

    ghost try_from_gives = { λ number model. model ≡ known_model number };

    fn try_from(number: u64) -> Result<ModelName, UnknownModel> {
        match number {
            0 => Ok(ModelName::Sc),
            1 => Ok(ModelName::Tso),
            2 => Ok(ModelName::Pso),
            3 => Ok(ModelName::Rmo),
            _ => Err(UnknownModel),
        }
    }
}

// The number of a model.
impl From<ModelName> for u64 {
    ghost from_gives = { λ model number. number ≡ model_number model };

    fn from(model: ModelName) -> u64 {
        match model {
            ModelName::Sc => 0,
            ModelName::Tso => 1,
            ModelName::Pso => 2,
            ModelName::Rmo => 3,
        }
    }
}

impl ModelName {
    // Whether this model keeps ahead every pair that the other keeps ahead: it does exactly if its number is not the greater one.
    pub fn is_at_least_as_strict(self, other: ModelName) -> bool
        ensures strict { (result ≡ true) ↔ AtLeastAsStrict (standard self) (standard other) }
        ensures numbers { result ≡ nat_le (model_number self) (model_number other) }
    {
        self <= other
    }
}
