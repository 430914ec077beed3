//! What a check gives.
use crate::parts::Part;
use crate::settings::{GridSpec, SetSpec};

/// What a line puts or sets, once it is checked.
#[derive(Debug, Drop)]
pub enum Checked {
    Part(Part),
    Grid(GridSpec),
    Set(SetSpec),
}
