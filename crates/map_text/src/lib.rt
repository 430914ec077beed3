//! The rows that go out, as text and on their way to a sink.
#![tactic(auto)]

mod counted;
mod heads;
mod laws;
mod levels;
mod looks;
mod refusals;
mod refused;
mod rounding;
mod rows;
mod site_summary;
mod stopped;

pub use counted::counts_text;
pub use csv_rows::{RowText, RowTexts, RowWriter};
pub use heads::{Head, head_text};
pub use laws::printed_is_around;
pub use levels::made_text;
pub use looks::{receiver_text, row_text};
pub use refusals::Refusal;
pub use refused::refused_text;
pub use rows::Rows;
pub use scene_parts::NoMemory;
pub use site_summary::SiteSummary;
pub use stopped::Stopped;
