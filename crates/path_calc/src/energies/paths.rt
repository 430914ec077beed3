//! All paths from a source to a receiver: the direct one, those round the sides and those by way of walls.
ghost use Rattle.std.specs.Prelude.{◌≡◌, ◌≤◌, ◌∷◌, ◌++◌, [], true, length, map, flat_map, All, OnOk};
ghost use Rattle.scene_geom.specs.Bands.{all_bands};
ghost use Rattle.scene_geom.specs.declared.band.Band.{Band};
ghost use Rattle.scene_parts.specs.Parts.{Source, Receiver};
ghost use Rattle.scene_book.specs.Book.{most_sides};
ghost use Rattle.sight_cut.specs.Cuts.{crossings_of};
ghost use Rattle.path_calc.specs.declared.bundles.segments.Seg.TheVariants.{Straight};
ghost use Rattle.path_calc.specs.ReflectedPaths.{reflected_paths};
ghost use Rattle.path_calc.specs.inner.Ends.{FitsEnds, IsBetween, direct_path_of};
ghost use Rattle.path_calc.specs.inner.Hearing.{ArePaths, open_path, lateral_at, reflected_of};
ghost use Rattle.path_calc.specs.inner.Propagations.{IsPropagation};
ghost use Rattle.path_shape.specs.Shape.{IsPath};
ghost use Rattle.path_calc.specs.inner.Ranges.{AreInRange, IsOnMap, IsLateralScreening};
ghost use Rattle.path_calc.specs.inner.Strings.{both_of, lateral_of, d_z_over};
ghost use Rattle.path_calc.specs.inner.Tracing.{segments_in_band};
ghost use Rattle.path_calc.specs.Trace.{trace_of};

use crate::bundles::segments::{Seg, Segs};
use crate::direct::lengths::{direct_square, distance};
use crate::direct::propagation::{Between, Propagation};
use crate::lateral::{LateralScreening, lateral_screening};
use crate::reflected::Reflected;
use crate::workspace::PathBuffers;
use fix_interval::Iv;
use path_shape::Path;
use scene_geom::Band;
use scene_parts::NoMemory;
use std::mem;

/// What the bands share of all paths from a source to a receiver: of the direct one, which leads over the top of what
/// screens it, D_z in dB in each band round the left and the right, where sound goes there (an empty list where nothing
/// screens), and of those by way of walls.
#[derive(Drop)]
pub(crate) struct Paths {
    pub(crate) direct: Propagation,
    pub(crate) lateral: Vec<LateralScreening>,
    pub(crate) reflected: Vec<Reflected>,
}

impl Paths {
    /// The direct path between two ends as it is in the open, and no other. The path is that between these ends.
    #[inline(always)]
    pub(crate) fn in_the_open(between: &Between<'_>, path: &Path) -> Paths
        requires ends { FitsEnds between.now }
        requires path { path.now ≡ direct_path_of between.now.ends }
        requires shape { IsPath path.now }
        ensures value { result.direct ≡ open_path between.now.scene.now between.now.ends }
        ensures range { IsPropagation result.direct }
        ensures near { IsOnMap result.direct.distance }
    {
        let ends = between.ends;
        let distance = distance(ends.s, ends.hs, ends.r, ends.hr);
        Paths {
            direct: between.in_the_open(path, direct_square(ends.s, ends.r), distance),
            lateral: Vec::new(between.alloc),
            reflected: Vec::new(between.alloc),
        }
    }

    /// Finds all other paths between these ends, and what screens the direct one over the top in the bands in which there is
    /// power. The trace of all paths stands in the buffers that are lent, in place of another's. One search finds the edges
    /// of all bands on a path. What may fail gives nothing large.
    pub(crate) fn find_all(
        &mut self,
        between: &Between<'_>,
        path: &Path,
        buffers: &mut PathBuffers,
    ) -> Result<(), NoMemory>
        requires ends { FitsEnds between.now }
        requires path { path.now ≡ direct_path_of between.now.ends }
        requires open { self.old.direct ≡ open_path between.now.scene.now between.now.ends }
        requires range { IsPropagation self.old.direct }
        requires near { IsOnMap self.old.direct.distance }
        ensures value { OnOk result ((s : Source) (r : Receiver) → IsBetween between.now s r
            → ArePaths self.new between.now.scene.now s r) }
        ensures range { OnOk result (AreInRange self.new) }
        ensures trace { OnOk result ((s : Source) (r : Receiver) → IsBetween between.now s r
            → buffers.new.trace ≡ trace_of between.now.scene.now s r) }
    {
        let (ends, alloc) = (between.ends, between.alloc);
        between
            .scene
            .find_crossings(ends, &mut buffers.lines.found, &mut buffers.crossings)?;
        self.direct.screen(
            alloc,
            buffers.crossings.as_slice(),
            path,
            &between.from.powered(),
            &mut buffers.lines.screening,
        )?;
        find_others(between, self.direct.distance, buffers)?;
        self.lateral = mem::replace(&mut buffers.lateral, Vec::new(alloc));
        self.reflected = mem::replace(&mut buffers.reflected, Vec::new(alloc));
        Ok(())
    }
}

/// Finds the paths round the sides of what crosses the line of sight, over a distance in metres, and those by way of walls,
/// and the trace of all paths, in place of what the buffers held.
fn find_others(
    between: &Between<'_>,
    distance: Iv,
    buffers: &mut PathBuffers,
) -> Result<(), NoMemory>
    requires ends { FitsEnds between.now }
    requires distance { IsOnMap distance }
    requires crossings { buffers.old.crossings.items
        ≡ crossings_of between.now.ends between.now.scene.now.obstacles }
    ensures lateral { OnOk result ((band : Band)
        → both_of (lateral_of buffers.new.lateral.items band)
        ≡ d_z_over between.now.ends between.now.scene.now.obstacles distance band) }
    ensures bounds { OnOk result (All IsLateralScreening buffers.new.lateral.items) }
    ensures reflected { OnOk result (let book = between.now.scene.now in buffers.new.reflected.items
        ≡ map (reflected_of book.globals between.now.from.now between.now.ends)
        (reflected_paths book between.now.ends)) }
    ensures few { OnOk result (length buffers.new.reflected.items ≤ most_sides) }
    ensures trace { OnOk result (buffers.new.trace
        ≡ Straight between.now.ends.s between.now.ends.r
        ∷ (flat_map (segments_in_band between.now.ends between.now.scene.now.obstacles) all_bands
        ++ map (λ path. path.wall) buffers.new.reflected.items)) }
{
    let PathBuffers {
        trace,
        crossings,
        lateral,
        strings,
        reflected,
        lines,
    } = buffers;
    let ends = between.ends;
    trace.clear();
    trace.push(Seg::Straight(ends.s, ends.r))?;
    lateral_screening(
        between.scene,
        ends,
        crossings.as_slice(),
        distance,
        strings,
        lateral,
        &mut lines.found,
        trace,
    )?;
    between.find_reflected(reflected, lines)?;
    add_walls(trace, reflected.as_slice())
}

/// Adds the legs of paths by way of walls to a trace.
fn add_walls(trace: &mut Segs, reflected: &[Reflected]) -> Result<(), NoMemory>
    ensures { OnOk result (trace.new ≡ trace.old ++ map (λ path. path.wall) reflected.now) }
{
    for path in reflected {
        trace.push(path.wall())?;
    }
    Ok(())
}

impl Paths {
    /// Whether nothing but the direct path leads to the receiver.
    pub(crate) fn has_direct_alone(&self) -> bool
        ensures { result ≡ true → (self.now.lateral.items ≡ []) × (self.now.reflected.items ≡ []) }
    {
        self.lateral.is_empty() && self.reflected.is_empty()
    }

    /// The attenuation by screening round the sides in a band.
    pub(crate) fn lateral_in(&self, band: Band) -> LateralScreening
        requires { AreInRange self.now }
        ensures value { both_of result ≡ lateral_at self.now band }
        ensures bounds { IsLateralScreening result }
    {
        match self.lateral.get(band.place()) {
            Some(lateral) => *lateral,
            None => LateralScreening {
                left: None,
                right: None,
            },
        }
    }
}
