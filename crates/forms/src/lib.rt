#![tactic(auto)]

mod carrying;
mod entry_links;
mod entry_set;
mod form;
mod memory;
mod order;
mod order_form;
mod order_moves;
mod ordered;
mod ordering;
mod pairs;
mod preserved_order;
mod sets;
mod words;

pub use form::Form;
pub use order_form::OrderForm;
pub use ordered::OrderedTrace;
pub use pairs::at_least_as_strict_on;
pub use preserved_order::PreservedOrder;
