//! Generated sites: from a number the lines of input of a whole site with many edits, always the same.
#![tactic(auto)]

mod draws;
mod kinds;
mod lines;
mod maker;
mod memory;
mod parts;
mod rectangle;
mod sites;

pub use memory::NoMemory;
pub use sites::site;
