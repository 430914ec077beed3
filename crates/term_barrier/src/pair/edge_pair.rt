//! Two edges of a path, with their numbers.

use crate::pair::DoubleDiffraction;

/// Two of the edges of a path, by their numbers from 0, and diffraction at both.
#[derive(Clone, Copy, Drop)]
pub(crate) struct EdgePair {
    pub first: usize,
    pub second: usize,
    pub diffraction: DoubleDiffraction,
}
