//! The obstacles that screen in a band, by their numbers.
ghost use Rattle.std.specs.Prelude.{◌≡◌, slice_get, OnOk};
ghost use Rattle.path_calc.specs.inner.Strings.{rises_in, is_number, numbers_in, corners_at, corners_numbered};
ghost use Rattle.path_calc.specs.inner.Tracing.{same_numbers};

use scene_geom::{Band, Pt};
use scene_parts::{Crossing, NoMemory, Obstacle};

/// For how many corners room is made at once.
const CORNERS_AT_FIRST: usize = 64;

/// Whether these are the numbers of the obstacles that screen in a band, each once and in order. It walks both side by
/// side and makes no list.
pub(crate) fn are_numbers_in(numbers: &[u32], crossings: &[Crossing], band: Band) -> bool
    ensures { result ≡ same_numbers (numbers_in band crossings.now) numbers.now }
{
    let mut count = 0;
    let mut before = None;
    for crossing in crossings {
        if rises(crossing, band) && !is(crossing.obstacle, before) {
            if !stands_at(numbers, count, crossing.obstacle) {
                return false;
            }
            count += 1;
            before = Some(crossing.obstacle);
        }
    }
    count == numbers.len()
}

/// Finds the numbers of the obstacles that screen in a band, each once and in order: those of the crossings that count
/// there and rise above the line of sight. They stand in place of what the list held.
pub(crate) fn find_numbers_in(
    crossings: &[Crossing],
    band: Band,
    numbers: &mut Vec<u32>,
) -> Result<(), NoMemory>
    ensures { OnOk result (numbers.new.items ≡ numbers_in band crossings.now) }
{
    numbers.clear();
    numbers.reserve(crossings.len())?;
    let mut before = None;
    for crossing in crossings {
        if rises(crossing, band) && !is(crossing.obstacle, before) {
            numbers.push(crossing.obstacle)?;
            before = Some(crossing.obstacle);
        }
    }
    Ok(())
}

/// Whether a crossing counts in a band and rises above the line of sight.
fn rises(crossing: &Crossing, band: Band) -> bool
    ensures { result ≡ rises_in band crossing.now }
{
    crossing.counts_in(band) && crossing.edge.above
}

/// Whether a number is that of the obstacle before.
fn is(number: u32, before: Option<u32>) -> bool
    ensures { result ≡ is_number number before }
{
    match before {
        Some(before) => before == number,
        None => false,
    }
}

/// Whether a number stands at a place of a list.
fn stands_at(numbers: &[u32], place: usize, number: u32) -> bool
    ensures { result ≡ is_number number (slice_get numbers.now place) }
{
    match numbers.get(place) {
        Some(other) => *other == number,
        None => false,
    }
}

/// Finds all corners of the obstacles of these numbers. They stand in place of what the list held.
pub(crate) fn find_corners_at(
    obstacles: &[Obstacle],
    numbers: &[u32],
    corners: &mut Vec<Pt>,
) -> Result<(), NoMemory>
    ensures { OnOk result (corners.new.items ≡ corners_at obstacles.now numbers.now) }
{
    corners.clear();
    corners.reserve(CORNERS_AT_FIRST)?;
    for number in numbers {
        corners.extend_from_slice(corners_of(obstacles, *number))?;
    }
    Ok(())
}

/// The corners of the obstacle of a number.
fn corners_of(obstacles: &[Obstacle], number: u32) -> &[Pt]
    ensures { result.now ≡ corners_numbered obstacles.now number }
{
    match obstacles.get(number as usize) {
        Some(obstacle) => obstacle.points.items(),
        None => &[],
    }
}
