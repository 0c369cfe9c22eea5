// Decimal numbers read from a text.
#![tactic(auto)]

mod number;
mod numbers;

pub use number::number_of;
pub use numbers::{Numbers, numbers_from};
