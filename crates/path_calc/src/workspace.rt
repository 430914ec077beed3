//! The memory that the calculation of paths needs.
ghost use Rattle.std.specs.Prelude.{◌≡◌, [], OnOk};

use crate::bundles::segments::Segs;
use crate::energies::paths::Paths;
use crate::lateral::LateralScreening;
use crate::lateral::strings::Strings;
use crate::reflected::Reflected;
use fix_interval::Iv;
use image_source::Leg;
use part_grid::Found;
use scene_parts::{Crossing, Edge, NoMemory};
use std::alloc::Global;
use std::marker::Model;
use std::mem;
use term_barrier::EdgeBuffers;

/// How many items a list that is lent gets room for at first: few paths have more.
pub(crate) const FIRST_ROOM: usize = 64;

/// The memory that the calculation of a path needs: lent to one path after another, it is asked for once. A path in the open
/// asks for none of it. Contracts see nothing of it, since no path depends on what another has left there.
#[derive(Drop)]
pub struct Workspace {
    pub(crate) paths: PathBuffers,
}

impl Model for Workspace {
    ghost use Rattle.std.specs.Prelude.{⊤};

    ghost Value = { ⊤ };

    ghost view = { λ _. tt };
}

/// What all paths between a source and a receiver need: their trace, what crosses the line of sight, what is found round its
/// sides and by way of walls.
#[derive(Drop)]
pub(crate) struct PathBuffers {
    pub(crate) trace: Segs,
    pub(crate) crossings: Vec<Crossing>,
    pub(crate) lateral: Vec<LateralScreening>,
    pub(crate) strings: Strings,
    pub(crate) reflected: Vec<Reflected>,
    pub(crate) lines: LineBuffers,
}

/// What the direct path and each path by way of a wall need, one after the other.
#[derive(Drop)]
pub(crate) struct LineBuffers {
    pub(crate) found: Found,
    pub(crate) legs: Vec<(Leg, Crossing)>,
    pub(crate) on_legs: Vec<Crossing>,
    pub(crate) screening: ScreeningBuffers,
}

/// What screening over the top needs: the edges on a path, a mark for each, what the bands share of them, and the memory of
/// attenuations that are no longer read.
#[derive(Drop)]
pub(crate) struct ScreeningBuffers {
    pub(crate) edges: Vec<Edge>,
    pub(crate) marks: Vec<bool>,
    pub(crate) shared: EdgeBuffers,
    pub(crate) spare: Vec<Box<[Iv; 8]>>,
}

impl Workspace {
    /// None yet: no memory is taken before it is needed.
    pub fn new(alloc: Global) -> Workspace {
        let screening = ScreeningBuffers {
            edges: Vec::new(alloc),
            marks: Vec::new(alloc),
            shared: EdgeBuffers::new(alloc),
            spare: Vec::new(alloc),
        };
        let lines = LineBuffers {
            found: Found::new(alloc),
            legs: Vec::new(alloc),
            on_legs: Vec::new(alloc),
            screening,
        };
        let paths = PathBuffers {
            trace: Segs::new(alloc),
            crossings: Vec::new(alloc),
            lateral: Vec::new(alloc),
            strings: Strings::none(alloc),
            reflected: Vec::new(alloc),
            lines,
        };
        Workspace { paths }
    }
}

impl PathBuffers {
    /// Takes back what was lent to paths that are no longer read.
    pub(crate) fn take_back(&mut self, paths: &mut Paths)
        ensures trace { self.new.trace ≡ self.old.trace }
        ensures reflected { self.new.reflected.items ≡ [] }
    {
        let spare = &mut self.lines.screening.spare;
        paths.direct.give_back(spare);
        while let Some(path) = paths.reflected.pop() {
            path.give_back(spare);
        }
        mem::swap(&mut self.lateral, &mut paths.lateral);
        mem::swap(&mut self.reflected, &mut paths.reflected);
    }
}

/// Empties a list that is lent, with room for a number of items that few paths exceed, so that it doesn't grow step by step.
pub(crate) fn make_ready<T: Drop>(list: &mut Vec<T>) -> Result<(), NoMemory>
    ensures { OnOk result (list.new.items ≡ []) }
{
    list.clear();
    Ok(list.reserve(FIRST_ROOM)?)
}
