//! The levels of a receiver.
use fix_interval::Iv;
use std::marker::Model;

/// The levels of a receiver in dB, each from 0 dB to below 512 dB: the A-weighted long-term level, and the level in
/// each octave band, which isn't weighted (ISO 9613-2, equations 5 and 6).
#[derive(Clone, Drop)]
pub struct Levels {
    pub total: Iv,
    pub bands: [Iv; 8],
}

impl Model for Levels {
    ghost use Rattle.path_calc.specs.Levels.{Levels as LevelsSeen, AreLevels};

    ghost Value = { LevelsSeen };

    ghost view = { λ l. record { total = l.total; bands = l.bands } };

    ghost invariant = { λ l. AreLevels (record { total = l.total; bands = l.bands }) };
}
