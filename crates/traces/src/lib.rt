#![tactic(auto)]

mod adding;
mod contents;
mod draft;
mod entry;
mod listing;
mod lookup;
mod numbers;
mod shown;
mod slots;

pub use draft::{Draft, Trace};
pub use entry::{Address, Entry, Instruction, Kind, Refusal};
pub use listing::Instructions;
pub use lookup::first_equal;
