// The four memory models of the field, from the strictest to the weakest: the lesser of two is the stricter.

#[derive(Clone, Copy, PartialEq, Eq, PartialOrd, Ord)]
pub enum ModelName {
    // sequential consistency
    Sc,
    // total store order
    Tso,
    // partial store order
    Pso,
    // relaxed memory order
    Rmo,
}

// The error of a number that stands for no model.
#[derive(Clone, Copy, PartialEq, Eq)]
pub struct UnknownModel;
