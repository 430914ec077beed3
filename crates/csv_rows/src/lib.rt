//! Rows of seven fields as CSV (RFC 4180), lists of them, and numbers as fields.
#![tactic(auto)]

mod numbers;
mod texts;
mod writing;

pub use numbers::{MAX_DIGITS, digits};
pub use scene_parts::NoMemory;
pub use texts::{RowText, RowTexts};
pub use writing::RowWriter;
