//! The octave bands of ISO 9613-2.
ghost use Rattle.std.specs.Prelude.{◌≡◌, ◌<◌, ◌≤◌, map};
ghost use Rattle.std.specs.List.{AllByRecursion};
ghost use Rattle.scene_geom.specs.Bands.{all_bands, place_of, frequency_of};

/// An octave band, by its nominal midband frequency.
#[derive(Clone, Copy, Debug, PartialEq, Eq)]
pub enum Band {
    Hz63,
    Hz125,
    Hz250,
    Hz500,
    Hz1000,
    Hz2000,
    Hz4000,
    Hz8000,
}

impl Band {
    /// The eight bands, from the lowest.
    pub fn all() -> [Band; 8]
        ensures { result ≡ all_bands }
    {
        Band::of_each(|band| band)
    }

    /// What a function gives in each of the eight bands, from the lowest.
    #[inline(always)]
    pub fn of_each<T, F: Fn(Band) -> T>(f: F) -> [T; 8]
        requires { F.IsAlwaysCallable f }
        ensures { (value : Band → T)
            × AllByRecursion (λ band. F.post f band (value band)) all_bands
            × (result ≡ map value all_bands) }
    {
        [
            f(Band::Hz63),
            f(Band::Hz125),
            f(Band::Hz250),
            f(Band::Hz500),
            f(Band::Hz1000),
            f(Band::Hz2000),
            f(Band::Hz4000),
            f(Band::Hz8000),
        ]
    }

    /// The place of the band among the eight, from 0.
    pub fn place(self) -> usize
        ensures value { result ≡ place_of self }
        ensures bound { result < 8 }
    {
        match self {
            Band::Hz63 => 0,
            Band::Hz125 => 1,
            Band::Hz250 => 2,
            Band::Hz500 => 3,
            Band::Hz1000 => 4,
            Band::Hz2000 => 5,
            Band::Hz4000 => 6,
            Band::Hz8000 => 7,
        }
    }

    /// The nominal midband frequency in Hz.
    pub fn frequency(self) -> u32
        ensures value { result ≡ frequency_of self }
        ensures bound { result ≤ 8000 }
    {
        match self {
            Band::Hz63 => 63,
            Band::Hz125 => 125,
            Band::Hz250 => 250,
            Band::Hz500 => 500,
            Band::Hz1000 => 1000,
            Band::Hz2000 => 2000,
            Band::Hz4000 => 4000,
            Band::Hz8000 => 8000,
        }
    }
}
