//! Words of lines that name one of a few: kinds of sources, shapes of obstacles, air, ground and fields.
ghost use Rattle.std.specs.Prelude.{◌≡◌};
ghost use Rattle.scene_parts.specs.Words.{field_word};

/// What makes a source's sound. The level doesn't depend on it.
#[derive(Clone, Copy, Debug, PartialEq, Eq)]
pub enum Kind {
    Road,
    Rail,
    Industry,
    Construction,
    Other,
}

/// The temperature in °C and the relative humidity in per cent of the air: a row of ISO 9613-2, Table 2.
#[derive(Clone, Copy, Debug, PartialEq, Eq)]
pub enum Air {
    Celsius10Humidity70,
    Celsius20Humidity70,
    Celsius30Humidity70,
    Celsius15Humidity20,
    Celsius15Humidity50,
    Celsius15Humidity80,
}

/// How the ground attenuates: by its factor in three regions of the path and in each octave band (ISO 9613-2, 7.3.1), or
/// by the alternative method for A-weighted levels over porous ground (7.3.2).
#[derive(Clone, Copy, Debug, PartialEq, Eq)]
pub enum Ground {
    General,
    Simple,
}

/// A barrier is a line of points, a building an area.
#[derive(Clone, Copy, Debug, PartialEq, Eq)]
pub enum Shape {
    Barrier,
    Building,
}

/// A field of an input line, by its name there.
#[derive(Clone, Copy, Debug, PartialEq, Eq)]
pub enum Field {
    Do,
    Name,
    Kind,
    X,
    Y,
    H,
    Lw,
    Dc,
    Points,
    Density,
    Rho,
    G,
    Step,
    Columns,
    Rows,
    Reach,
    Air,
    C0,
    Ground,
    Piece,
    Level,
    To,
}

impl Field {
    /// The word of a field, as lines and rows have it.
    #[tactic(auto, unfolding(crate::specs::Words::field_word))]
    pub fn word(self) -> &'static str
        ensures { result.now ≡ field_word self }
    {
        match self {
            Field::Do => "do",
            Field::Name => "name",
            Field::Kind => "kind",
            Field::X => "x",
            Field::Y => "y",
            Field::H => "h",
            Field::Lw => "lw",
            Field::Dc => "dc",
            Field::Points => "points",
            Field::Density => "density",
            Field::Rho => "rho",
            Field::G => "g",
            Field::Step => "step",
            Field::Columns => "columns",
            Field::Rows => "rows",
            Field::Reach => "reach",
            Field::Air => "air",
            Field::C0 => "c0",
            Field::Ground => "ground",
            Field::Piece => "piece",
            Field::Level => "level",
            Field::To => "to",
        }
    }
}
