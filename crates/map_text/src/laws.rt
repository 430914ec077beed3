//! Laws of what is shown. Each function does nothing: its contract is the law.
ghost use Rattle.map_text.specs.Rounding.{PrintedAround};

/// What is printed of a level, in 0.01 dB, encloses it, and each end lies less than 0.01 dB away.
pub fn printed_is_around()
    ensures { PrintedAround }
{}
