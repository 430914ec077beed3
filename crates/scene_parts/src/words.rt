//! Words of kinds of sources, of the air and of methods for ground.
ghost use Rattle.std.specs.Prelude.{◌≡◌};
ghost use Rattle.scene_parts.specs.Answers.{optional};
ghost use Rattle.scene_parts.specs.Checking.{kind_of, air_of, ground_of};

use crate::faults::PartFault;
use crate::kinds::{Air, Ground, Kind};
use crate::texts::Word;

/// The kind of source that a word names, or that it is outside the method or unknown.
#[tactic(auto, unfolding(crate::specs::Checking::kind_of))]
pub fn kind_named(word: Word) -> Result<Kind, PartFault>
    ensures { result ≡ kind_of word }
{
    if word.is(b"road") {
        Ok(Kind::Road)
    } else if word.is(b"rail") {
        Ok(Kind::Rail)
    } else if word.is(b"industry") {
        Ok(Kind::Industry)
    } else if word.is(b"construction") {
        Ok(Kind::Construction)
    } else if word.is(b"other") {
        Ok(Kind::Other)
    } else if word.is(b"aircraft") || word.is(b"blast") {
        Err(PartFault::OutsideMethod { kind: word })
    } else {
        Err(PartFault::UnknownKind { kind: word })
    }
}

/// The air that a word names: a row of ISO 9613-2, Table 2.
#[tactic(auto, unfolding(crate::specs::Checking::air_of))]
fn air_named(word: Word) -> Result<Air, PartFault>
    ensures { result ≡ air_of word }
{
    if word.is(b"10/70") {
        Ok(Air::Celsius10Humidity70)
    } else if word.is(b"20/70") {
        Ok(Air::Celsius20Humidity70)
    } else if word.is(b"30/70") {
        Ok(Air::Celsius30Humidity70)
    } else if word.is(b"15/20") {
        Ok(Air::Celsius15Humidity20)
    } else if word.is(b"15/50") {
        Ok(Air::Celsius15Humidity50)
    } else if word.is(b"15/80") {
        Ok(Air::Celsius15Humidity80)
    } else {
        Err(PartFault::UnknownKind { kind: word })
    }
}

/// The same of a word that may be left out.
pub fn optional_air(word: Option<Word>) -> Result<Option<Air>, PartFault>
    ensures { result ≡ optional air_of word }
{
    match word {
        None => Ok(None),
        Some(word) => Ok(Some(air_named(word)?)),
    }
}

/// The method for ground that a word names (ISO 9613-2, 7.3.1 and 7.3.2).
#[tactic(auto, unfolding(crate::specs::Checking::ground_of))]
fn ground_named(word: Word) -> Result<Ground, PartFault>
    ensures { result ≡ ground_of word }
{
    if word.is(b"general") {
        Ok(Ground::General)
    } else if word.is(b"simple") {
        Ok(Ground::Simple)
    } else {
        Err(PartFault::UnknownKind { kind: word })
    }
}

/// The same of a word that may be left out.
pub fn optional_ground(word: Option<Word>) -> Result<Option<Ground>, PartFault>
    ensures { result ≡ optional ground_of word }
{
    match word {
        None => Ok(None),
        Some(word) => Ok(Some(ground_named(word)?)),
    }
}
