//! Ten to the power of an interval, and e to the power of the negative of one, as intervals that enclose
//! them.
//!
//! ISO 9613-2 adds levels as powers of ten. The power of a fraction and an estimate of it come from `fix_interval`; only
//! where the estimate leaves two numbers is the power itself taken, digit by digit. A decay goes the same way, by its own
//! tables of roots below 1, which are proved to be what they should be. `laws` says that the values enclose the powers.
#![tactic(auto)]

mod decay;
mod estimates;
pub mod laws;
mod losses;
mod power;
mod product;
mod tables;

pub use decay::exp_neg;
pub use power::ten;
