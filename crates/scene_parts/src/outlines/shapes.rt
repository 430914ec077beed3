//! Corners and sides of outlines.
ghost use Rattle.std.specs.Prelude.{◌≡◌, ◌≤◌, ◌<◌, ◌*◌, ◌++◌, ◌∷◌, [], length, IfOk, OnOk, IsTrue, Some, false, slice_get};
ghost use Rattle.std.specs.List.{list_all};
ghost use Rattle.std.specs.Prelude.{◌-ℤ◌, ◌*ℤ◌, ◌≤ℤ◌, pos, unsigned_abs};
ghost use Rattle.scene_geom.specs.Plan.{InPlan};
ghost use Rattle.scene_geom.specs.declared.plan.Pt.{Pt};
ghost use Rattle.scene_parts.specs.Answers.{MatchesUnlessMemory, lacks_memory};
ghost use Rattle.scene_parts.specs.Limits.{most_corners};
ghost use Rattle.scene_parts.specs.Parts.{are_same, is_same, is_flat, is_mirror, least_corners};
ghost use Rattle.scene_parts.specs.Sides.{sides_in, is_short, squared_length, floor_root};
ghost use Rattle.scene_parts.specs.Checking.{corner_of, corners_of, check_outline as check_outline_of, check_surface as check_surface_of, check_sides_from, check_reflection as check_reflection_of, check_density as check_density_of};

use crate::checks::ranges::plan_point;
use crate::faults::PartFault;
use crate::kinds::{Field, Shape};
use crate::limits::{MAX_CORNERS, MAX_SIDE_LENGTH, MIN_DENSITY, WEAK_REFLECTION};
use crate::memory::NoMemory;
use crate::outlines::{Outline, RawPt};
use crate::screening::edges::{side_at, side_count};
use scene_geom::{Pt, Side, area2};
use std::alloc::Global;

/// At most 1,024 corners on the plan, or `OutOfRange`.
#[tactic(auto, unfolding(crate::specs::Checking::corners_of))]
pub fn corners(alloc: Global, points: &[RawPt]) -> Result<Outline, PartFault>
    ensures value { MatchesUnlessMemory lacks_memory result (corners_of points.now) }
    ensures few { IfOk result (λ corners. length corners ≤ most_corners) }
{
    let mut corners = Vec::new(alloc);
    for point in points {
        let corner = corner(*point)?;
        add_corner(&mut corners, corner)?;
    }
    if points.len() > MAX_CORNERS {
        return Err(PartFault::OutOfRange {
            field: Field::Points,
            value: points.len() as i64,
        });
    }
    Ok(Outline::from_vec(corners))
}

fn add_corner(corners: &mut Vec<Pt>, corner: Pt) -> Result<(), NoMemory>
    ensures { OnOk result (corners.new.items ≡ corners.old.items ++ corner ∷ []) }
{
    Ok(corners.push(corner)?)
}

fn corner(point: RawPt) -> Result<Pt, PartFault>
    ensures { result ≡ corner_of point }
{
    plan_point(Field::Points, Field::Points, point.x, point.y)
}

/// A density of at least 10 kg/m², or `TooLight` (ISO 9613-2, 7.4).
pub fn check_density(density: u32) -> Result<(), PartFault>
    ensures { result ≡ check_density_of density }
{
    if density < MIN_DENSITY {
        return Err(PartFault::TooLight { density });
    }
    Ok(())
}

/// Enough corners for the shape and not flat, or `FewCorners` or `FlatShape`.
#[tactic(auto, unfolding(crate::specs::Checking::check_outline))]
pub fn check_outline(shape: Shape, corners: &[Pt]) -> Result<(), PartFault>
    requires { length corners.now ≤ most_corners }
    ensures value { result ≡ check_outline_of shape corners.now }
    ensures enough { OnOk result (least_corners shape ≤ length corners.now) }
    ensures spread { OnOk result (is_flat shape corners.now ≡ false) }
{
    let least = match shape {
        Shape::Barrier => 2,
        Shape::Building => 3,
    };
    if corners.len() < least {
        return Err(PartFault::FewCorners {
            count: corners.len() as u32,
        });
    }
    if flat(shape, corners) {
        return Err(PartFault::FlatShape);
    }
    Ok(())
}

/// What a barrier and a building have in common: an outline, short sides and a reflection that the method takes, or the
/// first of their faults.
pub fn check_surface(shape: Shape, corners: &[Pt], rho: u16) -> Result<(), PartFault>
    requires { length corners.now ≤ most_corners }
    ensures value { result ≡ check_surface_of shape corners.now rho }
    ensures enough { OnOk result (least_corners shape ≤ length corners.now) }
    ensures spread { OnOk result (is_flat shape corners.now ≡ false) }
    ensures short { OnOk result (IsTrue (list_all is_short (sides_in shape corners.now))) }
    ensures mirror { OnOk result (IsTrue (is_mirror rho)) }
{
    check_outline(shape, corners)?;
    check_sides(shape, corners)?;
    check_reflection(rho)
}

fn flat(shape: Shape, corners: &[Pt]) -> bool
    ensures { result ≡ is_flat shape corners.now }
{
    match shape {
        Shape::Barrier => same(corners),
        Shape::Building => area2(corners) == 0,
    }
}

fn same(corners: &[Pt]) -> bool
    ensures { result ≡ are_same corners.now }
{
    match corners.split_first() {
        None => true,
        Some((first, rest)) => all_at(*first, rest),
    }
}

fn all_at(first: Pt, corners: &[Pt]) -> bool
    ensures { result ≡ list_all (is_same first) corners.now }
{
    corners.iter().all(|corner| in_one_place(first, *corner))
}

fn in_one_place(p: Pt, q: Pt) -> bool
    ensures { result ≡ is_same p q }
{
    p.x == q.x && p.y == q.y
}

/// Sides of at most 262,143 mm, or `SideTooLong` of the first that is longer.
fn check_sides(shape: Shape, corners: &[Pt]) -> Result<(), PartFault>
    requires { length corners.now ≤ most_corners }
    ensures value { result ≡ check_sides_from 0 (sides_in shape corners.now) }
    ensures all { OnOk result (IsTrue (list_all is_short (sides_in shape corners.now))) }
{
    for i in 0..side_count(shape, corners) {
        let side = side_at(shape, corners, i);
        if !is_short_side(side) {
            return Err(PartFault::SideTooLong {
                side: i,
                mm: length_of(side),
            });
        }
    }
    Ok(())
}

fn is_short_side(side: Side) -> bool
    ensures { result ≡ is_short side }
{
    squared(side) <= MAX_SIDE_LENGTH * MAX_SIDE_LENGTH
}

/// The squared length of a side, in mm².
pub fn squared(side: Side) -> u64
    ensures value { result ≡ squared_length side }
    ensures within { result ≤ 128000000000000 }
{
    let across = square(way(side.from.x, side.to.x));
    let up = square(way(side.from.y, side.to.y));
    (across + up) as u64
}

/// How far it is from one coordinate to another, in mm.
fn way(from: i32, to: i32) -> i64
    requires from_in_plan { InPlan from }
    requires to_in_plan { InPlan to }
    ensures value { result ≡ to -ℤ from }
    ensures within { unsigned_abs result ≤ 8000000 }
{
    i64::from(to) - i64::from(from)
}

fn square(way: i64) -> i64
    requires { unsigned_abs way ≤ 8000000 }
    ensures value { result ≡ way *ℤ way }
    ensures low { pos 0 ≤ℤ result }
    ensures high { result ≤ℤ pos 64000000000000 }
{
    way * way
}

/// The length of a side in mm, rounded down.
fn length_of(side: Side) -> u32
    ensures { result ≡ floor_root (squared_length side) }
{
    squared(side).isqrt() as u32
}

/// Nothing reflected, or more than 200 per mille, or `WeakMirror`.
fn check_reflection(rho: u16) -> Result<(), PartFault>
    ensures value { result ≡ check_reflection_of rho }
    ensures mirror { OnOk result (IsTrue (is_mirror rho)) }
{
    if rho == 0 || rho > WEAK_REFLECTION {
        Ok(())
    } else {
        Err(PartFault::WeakMirror { rho })
    }
}
