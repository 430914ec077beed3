//! What is wrong with a part.
use crate::kinds::Field;
use crate::memory::NoMemory;
use crate::texts::Word;

/// Why a part is refused. `NoMemory` can come at any time; of the others the first in this order is
/// the answer, and of `OutOfRange` the first field in the order of its line.
#[derive(Debug, Drop)]
pub enum PartFault {
    /// There was no memory for the part.
    NoMemory,
    /// A number is outside the range of its field.
    OutOfRange { field: Field, value: i64 },
    /// ISO 9613-2 doesn't cover sources of this kind: aircraft in flight and blast waves (clause 1).
    OutsideMethod { kind: Word },
    /// There is no such kind of source, no such air, or no such method for ground.
    UnknownKind { kind: Word },
    /// A barrier of less than 10 kg/m² doesn't screen (ISO 9613-2, 7.4).
    TooLight { density: u32 },
    /// A barrier has fewer than 2 points, a building, a zone or a foliage fewer than 3.
    FewCorners { count: u32 },
    /// A building, a zone or a foliage has no area, or all points of a barrier are in one place.
    FlatShape,
    /// This side, counted from 0, is longer than 262,143 mm; its length is rounded down.
    SideTooLong { side: u32, mm: u32 },
    /// A surface that reflects at most 200 per mille is no mirror (ISO 9613-2, 7.5). 0 means that nothing is reflected.
    WeakMirror { rho: u16 },
}

impl From<NoMemory> for PartFault {
    ghost use Rattle.std.specs.Prelude.{◌≡◌};
    ghost use Rattle.scene_parts.specs.declared.faults.PartFault.TheVariants as faults;

    ghost from_gives = { λ _ e. e ≡ faults.NoMemory };

    fn from(_want: NoMemory) -> PartFault {
        PartFault::NoMemory
    }
}
