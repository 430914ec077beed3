//! The kinds of parts that a generated site has.
ghost use Rattle.std.specs.Prelude.{◌≡◌};
ghost use Rattle.site_maker.specs.Parts.{count_of};
ghost use Rattle.site_maker.specs.Site.{kind_at};

#[derive(Clone, Copy, Debug)]
pub(crate) enum Kind {
    Source,
    Building,
    Barrier,
    Zone,
}

impl Kind {
    /// The kind that an edit means by a number.
    pub fn at(number: u32) -> Kind
        ensures { result ≡ kind_at number }
    {
        match number {
            0 => Kind::Source,
            1 => Kind::Building,
            2 => Kind::Barrier,
            _ => Kind::Zone,
        }
    }

    /// How many parts of this kind a site has.
    pub fn count(self) -> u32
        ensures { result ≡ count_of self }
    {
        match self {
            Kind::Source => 8,
            Kind::Building => 12,
            Kind::Barrier => 4,
            Kind::Zone => 4,
        }
    }
}
