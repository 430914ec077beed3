//! What an edit of a board does, to its scene and to its rows.

pub(crate) mod editing;
pub(crate) mod log;
pub(crate) mod marking;
pub(crate) mod namings;
pub(crate) mod renewing;
pub(crate) mod testing;
