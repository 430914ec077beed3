//! The bundles of a receiver, refreshed: those that were kept for it and still stand are handed on as they are, and the
//! others are calculated from the scene.
#![tactic(auto)]

mod frames;
mod keeping;
pub mod laws;
mod origins;
mod preparing;
mod refreshing;
mod renewing;
mod replacing;
mod sums;

pub use frames::Frame;
pub use path_calc::{Bundle, NoMemory, PreparedSource, Steps};
pub use preparing::prepare;
pub use refreshing::{Renewal, refresh};
pub use renewing::{Renewed, WithSums, refresh_sums, renew};
pub use replacing::Replaced;
pub use sums::RowSums;
