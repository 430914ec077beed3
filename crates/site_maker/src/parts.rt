//! Parts, drawn one after another.
ghost use Rattle.std.specs.Prelude.{◌≡◌, ◌==◌, IfOk, string_bytes, if◌then◌else◌};
ghost use Rattle.site_maker.specs.Parts.{source, building, barrier, zone, part};
ghost use Rattle.site_maker.specs.inner.Making.{IsDrawn};

use crate::draws::Draws;
use crate::kinds::Kind;
use crate::lines::{barrier_line, building_line, source_line, zone_line};
use crate::memory::NoMemory;
use std::alloc::Global;

fn source(alloc: Global, draws: &mut Draws, number: u32) -> Result<String, NoMemory>
    ensures { IfOk result (λ line.
        IsDrawn (source number) draws.old.state draws.new.state (string_bytes line)) }
{
    let x = draws.place();
    let y = draws.place();
    let h = draws.draw_from(500, 5000);
    let lw = draws.powers();
    source_line(alloc, number, x, y, h, &lw)
}

/// What the sides of a building reflect, per mille.
fn rho_of(coin: u32) -> u32
    ensures { result ≡ (if coin == 0 then 0 else 800) }
{
    if coin == 0 { 0 } else { 800 }
}

fn building(alloc: Global, draws: &mut Draws, number: u32) -> Result<String, NoMemory>
    ensures { IfOk result (λ line.
        IsDrawn (building number) draws.old.state draws.new.state (string_bytes line)) }
{
    let base = draws.rectangle(5000, 30_000);
    let h = draws.draw_from(3000, 20_000);
    let rho = rho_of(draws.draw(2));
    building_line(alloc, number, &base, h, rho)
}

fn barrier(alloc: Global, draws: &mut Draws, number: u32) -> Result<String, NoMemory>
    ensures { IfOk result (λ line.
        IsDrawn (barrier number) draws.old.state draws.new.state (string_bytes line)) }
{
    let along = draws.rectangle(1000, 60_000);
    let h = draws.draw_from(2000, 4000);
    barrier_line(alloc, number, &along, h)
}

fn zone(alloc: Global, draws: &mut Draws, number: u32) -> Result<String, NoMemory>
    ensures { IfOk result (λ line.
        IsDrawn (zone number) draws.old.state draws.new.state (string_bytes line)) }
{
    let outline = draws.rectangle(20_000, 200_000);
    let g = draws.draw(101);
    zone_line(alloc, number, &outline, g)
}

/// The line of a part of a kind, by its number.
pub(crate) fn part(
    alloc: Global,
    draws: &mut Draws,
    kind: Kind,
    number: u32,
) -> Result<String, NoMemory>
    ensures { IfOk result (λ line.
        IsDrawn (part kind number) draws.old.state draws.new.state (string_bytes line)) }
{
    match kind {
        Kind::Source => source(alloc, draws, number),
        Kind::Building => building(alloc, draws, number),
        Kind::Barrier => barrier(alloc, draws, number),
        Kind::Zone => zone(alloc, draws, number),
    }
}
