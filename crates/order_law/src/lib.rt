//! That levels don't depend on the order in which the parts of a scene stand.
#![tactic(auto)]

mod alike;
pub mod laws;

pub use alike::shows_alike;
