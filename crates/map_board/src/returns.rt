//! Jobs and answers that come back to a board.

pub(crate) mod back;
pub(crate) mod landing;
pub(crate) mod later;
pub(crate) mod returning;
