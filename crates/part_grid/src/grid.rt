//! The index.
ghost use Rattle.std.specs.Prelude.{◌≡◌, [], length, map, replicate, false, IfOk, OnOk, OnErr};
ghost use Rattle.part_grid.specs.Cells.{cells_meet_of, boxes_meet};
ghost use Rattle.part_grid.specs.Near.{near_of, near_box_of, sides_near, sides_within};
ghost use Rattle.part_grid.specs.Ways.{cells_meet_way, sides_near_way};
ghost use Rattle.scene_geom.specs.Direction.{FitsDirection};
ghost use Rattle.scene_geom.specs.Fraction.{FitsEnd};

use crate::cells::entering::entered;
use crate::cells::frame::{Frame, frame_of};
use crate::cells::lines::{columns_between, rows_between};
use crate::cells::walk::walk_rows;
use crate::cells::way::{rows_in, way_columns, way_rows};
use crate::found::{Found, list_marked};
use crate::numbers::marking::mark_column;
use crate::numbers::marks::Marks;
use crate::numbers::register::Register;
use crate::owned::{Owned, Place};
use scene_geom::{Dir, Frac, Pt};
use std::alloc::{AllocError, Global};
use std::marker::Model;

/// An index of sides by cells of 65,536 mm. Contracts see it as the list of the sides.
#[derive(Debug, Drop)]
pub struct Grid {
    sides: Vec<Owned>,
    frame: Frame,
    register: Register,
}

impl Model for Grid {
    ghost use Rattle.std.specs.Prelude.{List};
    ghost use Rattle.part_grid.specs.declared.owned.Owned.{Owned};
    ghost use Rattle.part_grid.specs.inner.Index.{IsIndex};

    ghost Value = { List Owned };

    ghost view = { λ g. g.sides.items };

    ghost invariant = { λ g. IsIndex g.sides.items g.frame g.register };
}

impl Grid {
    /// The index of some sides. Cells are laid over the columns and rows that the sides use.
    pub fn build(alloc: Global, sides: &[Owned]) -> Result<Self, AllocError>
        ensures { IfOk result (λ grid. grid ≡ sides.now) }
    {
        let frame = frame_of(sides);
        let register = entered(alloc, sides, frame)?;
        let kept = Vec::from_slice(alloc, sides)?;
        Ok(Grid {
            sides: kept,
            frame,
            register,
        })
    }

    /// The places of the sides whose cells meet the walk of the segment from `p` to `q`, in their order. Among them are
    /// all sides that cross or block the segment.
    pub fn near(&self, alloc: Global, p: Pt, q: Pt) -> Result<Vec<Place>, AllocError>
        ensures { IfOk result (λ places. places.items ≡ near_of p q self.now) }
    {
        let mut found = Found::new(alloc);
        self.find_near(p, q, &mut found)?;
        found.places(alloc)
    }

    /// The places of the sides whose cells meet those of the box with these corners, in their order.
    pub fn near_box(&self, alloc: Global, low: Pt, high: Pt) -> Result<Vec<Place>, AllocError>
        ensures { IfOk result (λ places. places.items ≡ near_box_of low high self.now) }
    {
        let mut found = Found::new(alloc);
        self.find_near_box(low, high, &mut found)?;
        found.places(alloc)
    }

    /// The sides that `near` tells, with buffers that the caller lends.
    pub fn find_near(&self, p: Pt, q: Pt, found: &mut Found) -> Result<(), AllocError>
        ensures found { OnOk result (found.new ≡ sides_near p q self.now) }
        ensures none { OnErr result (found.new ≡ []) }
    {
        found.sides.clear();
        found.marks.reset(self.sides.len())?;
        self.mark_near(p, q, &mut found.marks);
        list_marked(&found.marks, self.sides.as_slice(), &mut found.sides)
    }

    /// The sides that `near_box` tells, with buffers that the caller lends.
    pub fn find_near_box(&self, low: Pt, high: Pt, found: &mut Found) -> Result<(), AllocError>
        ensures found { OnOk result (found.new ≡ sides_within low high self.now) }
        ensures none { OnErr result (found.new ≡ []) }
    {
        found.sides.clear();
        found.marks.reset(self.sides.len())?;
        self.mark_box(low, high, &mut found.marks);
        list_marked(&found.marks, self.sides.as_slice(), &mut found.sides)
    }

    /// The sides whose cells meet those of the way from a point along a direction up to an end, in their order, with
    /// buffers that the caller lends. Among them are all sides that cross the way.
    pub fn find_near_way(
        &self,
        from: Pt,
        dir: Dir,
        end: Frac,
        found: &mut Found,
    ) -> Result<(), AllocError>
        requires dir { FitsDirection dir }
        requires end { FitsEnd end }
        ensures found { OnOk result (found.new ≡ sides_near_way from dir end self.now) }
        ensures none { OnErr result (found.new ≡ []) }
    {
        found.sides.clear();
        found.marks.reset(self.sides.len())?;
        self.mark_way(from, dir, end, &mut found.marks);
        list_marked(&found.marks, self.sides.as_slice(), &mut found.sides)
    }

    /// Marks the sides whose cells meet the walk of a segment.
    fn mark_near(&self, p: Pt, q: Pt, marks: &mut Marks)
        requires { marks.old ≡ replicate (length self.now) false }
        ensures { marks.new ≡ map (λ owned. cells_meet_of owned.side p q) self.now }
    {
        let columns = columns_between(p, q).common(self.frame.columns);
        for column in columns.low..columns.high + 1 {
            let rows = walk_rows(p, q, column);
            mark_column(&self.register, self.frame, column, rows, marks);
        }
    }

    /// Marks the sides whose cells meet those of a box.
    fn mark_box(&self, low: Pt, high: Pt, marks: &mut Marks)
        requires { marks.old ≡ replicate (length self.now) false }
        ensures { marks.new ≡ map (λ owned. boxes_meet owned.side low high) self.now }
    {
        let boxed = columns_between(low, high).common(self.frame.columns);
        let rows = rows_between(low, high);
        for column in boxed.low..boxed.high + 1 {
            mark_column(&self.register, self.frame, column, rows, marks);
        }
    }
    /// Marks the sides whose cells meet those of a way.
    fn mark_way(&self, from: Pt, dir: Dir, end: Frac, marks: &mut Marks)
        requires dir { FitsDirection dir }
        requires end { FitsEnd end }
        requires none { marks.old ≡ replicate (length self.now) false }
        ensures { marks.new ≡ map (λ owned. cells_meet_way owned.side from dir end) self.now }
    {
        let crossed = way_columns(from, dir, end).common(self.frame.columns);
        let all = way_rows(from, dir, end);
        let mut entered = None;
        for column in crossed.low..crossed.high + 1 {
            let (rows, left) = rows_in(from, dir, all, column, entered);
            mark_column(&self.register, self.frame, column, rows, marks);
            entered = left;
        }
    }
}
