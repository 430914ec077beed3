//! What a line of sight meets on the plan.

pub(crate) mod beside;
pub(crate) mod crossing;
pub(crate) mod meeting;
