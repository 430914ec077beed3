//! Rectangles in the plan.

/// A rectangle along the axes of the plan, in mm.
#[derive(Clone, Copy, Debug)]
pub(crate) struct Rectangle {
    pub left: i32,
    pub bottom: i32,
    pub right: i32,
    pub top: i32,
}
