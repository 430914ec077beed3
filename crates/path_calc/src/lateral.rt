//! By how much sound is screened that goes round the sides of what screens (ISO 9613-2, 7.4, equation 13).
ghost use Rattle.std.specs.Prelude.{◌≡◌, ◌++◌, flat_map, All, IfOk, OnOk};
ghost use Rattle.scene_parts.specs.Parts.{IsHeight};
ghost use Rattle.sight_cut.specs.Cuts.{crossings_of};
ghost use Rattle.path_calc.specs.inner.Ends.{FitsSight};
ghost use Rattle.path_calc.specs.inner.Ranges.{IsOnMap, IsLateralScreening};
ghost use Rattle.scene_geom.specs.Bands.{all_bands};
ghost use Rattle.path_calc.specs.inner.Strings.{AreStretched, AreMeasured, lateral_of, both_of, d_z_over, numbers_in};
ghost use Rattle.path_calc.specs.inner.Tracing.{segments_after, segments_in_band};

pub(crate) mod blocked;
pub(crate) mod screening_obstacles;
pub(crate) mod strings;

use crate::bundles::segments::Segs;
use crate::indexed::IndexedScene;
use crate::lateral::strings::Strings;
use fix_interval::Iv;
use part_grid::Found;
use scene_geom::Band;
use scene_parts::{Crossing, Ends, NoMemory};

/// By how much sound is screened in a band that goes round the left and the right, where it does: D_z in dB.
#[derive(Clone, Copy, Drop)]
pub(crate) struct LateralScreening {
    pub(crate) left: Option<Iv>,
    pub(crate) right: Option<Iv>,
}

/// What all bands share of a line of sight: the scene, the ends, the crossings, and how far source and receiver are
/// apart in metres.
#[derive(Drop)]
pub(crate) struct Sight<'a> {
    pub(crate) scene: &'a IndexedScene<'a>,
    pub(crate) ends: Ends,
    pub(crate) crossings: &'a [Crossing],
    pub(crate) d: Iv,
}

impl<'a> Sight<'a> {
    /// D_z round the sides in a band, with the strings of another band. Where others are stretched, their segments are
    /// added to the trace.
    fn d_z_in(
        &self,
        strings: &mut Strings,
        band: Band,
        found: &mut Found,
        trace: &mut Segs,
    ) -> Result<LateralScreening, NoMemory>
        requires sight { FitsSight self.now }
        requires strings { AreStretched strings.old self.now.ends self.now.scene.now.obstacles }
        requires measured { AreMeasured strings.old self.now.ends self.now.d }
        ensures strings { OnOk result (AreStretched strings.new self.now.ends self.now.scene.now.obstacles) }
        ensures measured { OnOk result (AreMeasured strings.new self.now.ends self.now.d) }
        ensures numbers { OnOk result
            (strings.new.numbers.items ≡ numbers_in band (crossings_of self.now.ends self.now.scene.now.obstacles)) }
        ensures trace { OnOk result (trace.new ≡ trace.old
            ++ segments_after strings.old.numbers.items self.now.ends self.now.scene.now.obstacles band) }
        ensures value { IfOk result (λ lateral. both_of lateral
            ≡ d_z_over self.now.ends self.now.scene.now.obstacles self.now.d band) }
        ensures bounds { IfOk result IsLateralScreening }
    {
        strings.turn_to(self, band, found, trace)?;
        Ok(strings.d_z(band))
    }

    /// D_z round the sides in each band. Bands in which the same obstacles screen share their strings. The segments of
    /// all strings are added to the trace. The strings of another path may stand before: nothing of them counts.
    fn d_z(
        &self,
        strings: &mut Strings,
        found: &mut Found,
        trace: &mut Segs,
    ) -> Result<[LateralScreening; 8], NoMemory>
        requires sight { FitsSight self.now }
        ensures value { IfOk result (λ lateral. (band : Band) → both_of (lateral_of lateral band)
            ≡ d_z_over self.now.ends self.now.scene.now.obstacles self.now.d band) }
        ensures bounds { IfOk result (All IsLateralScreening) }
        ensures trace { OnOk result (trace.new ≡ trace.old
            ++ flat_map (segments_in_band self.now.ends self.now.scene.now.obstacles) all_bands) }
    {
        strings.clear();
        let at_63 = self.d_z_in(strings, Band::Hz63, found, trace)?;
        let at_125 = self.d_z_in(strings, Band::Hz125, found, trace)?;
        let at_250 = self.d_z_in(strings, Band::Hz250, found, trace)?;
        let at_500 = self.d_z_in(strings, Band::Hz500, found, trace)?;
        let at_1000 = self.d_z_in(strings, Band::Hz1000, found, trace)?;
        let at_2000 = self.d_z_in(strings, Band::Hz2000, found, trace)?;
        let at_4000 = self.d_z_in(strings, Band::Hz4000, found, trace)?;
        let at_8000 = self.d_z_in(strings, Band::Hz8000, found, trace)?;
        Ok([
            at_63, at_125, at_250, at_500, at_1000, at_2000, at_4000, at_8000,
        ])
    }
}

/// Finds D_z round the sides in each band, of the obstacles that screen there, where source and receiver are `d` apart
/// in metres. It stands in place of what the list held. Where nothing crosses the line of sight, the list is empty:
/// most paths need no memory for it. The segments of all strings are added to the trace. The strings and the buffers
/// are lent: what they held before doesn't count.
pub(crate) fn lateral_screening(
    scene: &IndexedScene<'_>,
    ends: Ends,
    crossings: &[Crossing],
    d: Iv,
    strings: &mut Strings,
    lateral: &mut Vec<LateralScreening>,
    found: &mut Found,
    trace: &mut Segs,
) -> Result<(), NoMemory>
    requires source_height { IsHeight ends.hs }
    requires receiver_height { IsHeight ends.hr }
    requires distance { IsOnMap d }
    requires crossings { crossings.now ≡ crossings_of ends scene.now.obstacles }
    ensures value { OnOk result ((band : Band)
        → both_of (lateral_of lateral.new.items band) ≡ d_z_over ends scene.now.obstacles d band) }
    ensures bounds { OnOk result (All IsLateralScreening lateral.new.items) }
    ensures trace { OnOk result (trace.new ≡ trace.old
        ++ flat_map (segments_in_band ends scene.now.obstacles) all_bands) }
{
    lateral.clear();
    if crossings.is_empty() {
        return Ok(());
    }
    let sight = Sight {
        scene,
        ends,
        crossings,
        d,
    };
    let in_bands = sight.d_z(strings, found, trace)?;
    lateral.extend_from_slice(&in_bands)?;
    Ok(())
}
