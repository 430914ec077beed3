//! What screens a line of sight: sides, where they cross it, and how large an obstacle has to be.

pub(crate) mod crossing;
pub(crate) mod cuts;
pub(crate) mod edge;
pub(crate) mod edges;
pub(crate) mod ends;
pub(crate) mod size_test;
