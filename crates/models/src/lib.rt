#![tactic(auto)]

mod access;
mod accesses;
mod model;
mod name;
mod numbers;
mod partial_store;
mod relaxed;
mod sequential;
mod strictness;
mod total_store;

pub use access::Access;
pub use model::MemoryModel;
pub use name::{ModelName, UnknownModel};
pub use partial_store::Pso;
pub use relaxed::Rmo;
pub use sequential::Sc;
pub use strictness::{at_least_as_strict_at, standard_models};
pub use total_store::Tso;
