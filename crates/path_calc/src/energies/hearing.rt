//! What a receiver hears at the end of a path, in one band.
ghost use Rattle.std.specs.Prelude.{◌≡◌, ℕ, ◌+◌, ◌<◌, ◌≤◌, length, map, pos, fold, true, Some, IfSome};
ghost use Rattle.std.specs.Option.{option_map};
ghost use Rattle.fix_interval.specs.Values.{add_of, pick_of};
ghost use Rattle.term_barrier.specs.Limits.{IsScreening};
ghost use Rattle.fix_interval.specs.Tree.{Known, Const, Add, Sub, enc};
ghost use Rattle.energy_sum.specs.Energies.{energy_form};
ghost use Rattle.energy_sum.specs.Weather.{IsWeatherCorrection};
ghost use Rattle.path_calc.specs.Weights.{weight_in};
ghost use Rattle.path_calc.specs.inner.Prepared.{IsEmission, IsSentOn};
ghost use Rattle.path_calc.specs.inner.Ranges.{IsUnscreened, IsScreened, IsAtReceiver, IsHearable};
ghost use Rattle.path_calc.specs.inner.Propagations.{IsPropagation, IsEcho, IsReflectedSound, counts_at};
ghost use Rattle.path_calc.specs.inner.Losses.{loss_in};
ghost use Rattle.path_calc.specs.inner.Ranges.{AreInRange, IsWeight, IsSmall, IsSumOf, most_sounds};
ghost use Rattle.scene_book.specs.Book.{most_sides};
ghost use Rattle.path_calc.specs.inner.Hearing.{energy_after, long_energy_after, sum_after, past, with_energy};
ghost use Rattle.path_calc.specs.inner.Hearing.{power_at, screening_at};
ghost use Rattle.path_calc.specs.inner.Hearing.{downwind_energy, long_term_energy, sound_energy, echo_energy, reflected_energy};
ghost use Rattle.path_calc.specs.inner.Hearing.{level_before as level_form};

use crate::direct::absorption::coefficient;
use crate::direct::propagation::Propagation;
use crate::direct::screening::past_screens;
use crate::energies::paths::Paths;
use crate::energies::small_sums::{minus, plus};
use crate::energies::weights::weight_of;
use crate::prepared::PreparedSource;
use crate::reflected::{Echo, Reflected, Sound};
use energy_sum::energy;
use fix_interval::{Iv, Truth, exact, pick};
use scene_geom::Band;
use term_div_atm::a_atm;

/// What a receiver hears in a band: the energy, and the long-term energy, which is A-weighted.
#[derive(Drop)]
pub(crate) struct Heard {
    pub(crate) energy: Iv,
    pub(crate) long: Iv,
}

/// What is heard of a source in a band, at the end of all paths.
#[inline(always)]
pub(crate) fn heard_in(paths: &Paths, source: &PreparedSource, band: Band) -> Heard
    requires { AreInRange paths.now }
    ensures energy { result.energy ≡ energy_after paths.now source.now band }
    ensures long { result.long ≡ long_energy_after paths.now source.now band }
    ensures energy_bounds { IsSumOf most_sounds result.energy }
    ensures long_bounds { IsSumOf most_sounds result.long }
{
    match source.emission_in(band) {
        Some(emission) => heard_of(paths, band, emission),
        None => silence(),
    }
}

/// What is heard of all sounds in a band: that over the top, those round the left and the right, and those that walls
/// reflect.
#[inline(always)]
fn heard_of(paths: &Paths, band: Band, emission: Iv) -> Heard
    requires paths { AreInRange paths.now }
    requires emission { IsEmission emission }
    ensures energy { result.energy ≡ sum_after downwind_energy paths.now band (Some emission) }
    ensures long { result.long
        ≡ sum_after (long_term_energy band) paths.now band (Some emission) }
    ensures energy_bounds { IsSumOf most_sounds result.energy }
    ensures long_bounds { IsSumOf most_sounds result.long }
{
    let direct = &paths.direct;
    let level = level_before(direct, band, direct.power_of(emission));
    let over = heard_over(level, direct, band);
    if paths.has_direct_alone() {
        over
    } else {
        with_other_paths(over, level, paths, band, emission)
    }
}

/// What is heard over the top, and beside it what goes round the left and the right, and what walls reflect. It isn't put into
/// its caller, since a path in the open would pay there for its locals.
#[inline(never)]
fn with_other_paths(over: Heard, level: Iv, paths: &Paths, band: Band, emission: Iv) -> Heard
    requires paths { AreInRange paths.now }
    requires emission { IsEmission emission }
    requires level { level ≡ enc (level_form paths.now.direct band (power_at paths.now.direct emission)) }
    requires range { IsUnscreened level }
    requires energy { over.energy ≡ enc (energy_form (past level
        (screening_at paths.now.direct band) (loss_in paths.now.direct.foliage band))) }
    requires long { over.long ≡ enc (long_term_energy band (Known paths.now.direct.correction) (past level
        (screening_at paths.now.direct band) (loss_in paths.now.direct.foliage band))) }
    requires energy_bounds { IsSumOf 1 over.energy }
    requires long_bounds { IsSumOf 1 over.long }
    ensures energy { result.energy ≡ sum_after downwind_energy paths.now band (Some emission) }
    ensures long { result.long
        ≡ sum_after (long_term_energy band) paths.now band (Some emission) }
    ensures energy_bounds { IsSumOf most_sounds result.energy }
    ensures long_bounds { IsSumOf most_sounds result.long }
{
    let direct = &paths.direct;
    let lateral = paths.lateral_in(band);
    let left = with_lateral(over, level, lateral.left, direct, band);
    let right = with_lateral(left, level, lateral.right, direct, band);
    with_reflected(right, paths.reflected.as_slice(), band, emission)
}

/// What is heard, and beside it what walls reflect of an emission.
fn with_reflected(heard: Heard, reflected: &[Reflected], band: Band, emission: Iv) -> Heard
    requires energy { IsSumOf 3 heard.energy }
    requires long { IsSumOf 3 heard.long }
    requires few { length reflected.now ≤ most_sides }
    requires emission { IsEmission emission }
    ensures energy { result.energy ≡ enc (fold Add (Known heard.energy)
        (map (reflected_energy downwind_energy band emission) reflected.now)) }
    ensures long { result.long ≡ enc (fold Add (Known heard.long)
        (map (reflected_energy (long_term_energy band) band emission) reflected.now)) }
    ensures energy_bounds { IsSumOf most_sounds result.energy }
    ensures long_bounds { IsSumOf most_sounds result.long }
{
    let mut all = heard;
    for path in reflected {
        all = with_echo(all, path.echo(), band, emission);
    }
    all
}

/// What is heard, and beside it what is heard by way of a wall of an emission: where nothing is, and in a band in which the
/// wall is too small, nothing is calculated, since no energy is added there.
fn with_echo(heard: Heard, echo: &Echo, band: Band, emission: Iv) -> Heard
    requires energy { IsSmall heard.energy }
    requires long { IsSmall heard.long }
    requires echo { IsEcho echo.now }
    requires emission { IsEmission emission }
    ensures energy { result.energy
        ≡ add_of heard.energy (echo_energy downwind_energy band emission echo.now) }
    ensures long { result.long
        ≡ add_of heard.long (echo_energy (long_term_energy band) band emission echo.now) }
    ensures energy_bounds { (n : ℕ) → n < 131072 → IsSumOf n heard.energy → IsSumOf (n + 1) result.energy }
    ensures long_bounds { (n : ℕ) → n < 131072 → IsSumOf n heard.long → IsSumOf (n + 1) result.long }
{
    match echo {
        Echo::Silent => heard,
        Echo::Audible(sound) => match sound.counts_in(band) {
            Truth::Never => heard,
            Truth::Sure | Truth::Unsure => both(heard, heard_by_way(sound, band, emission)),
        },
    }
}

/// What is heard of an emission by way of a wall: where it isn't decided that the wall is large enough, the interval of both
/// cases.
fn heard_by_way(sound: &Sound, band: Band, emission: Iv) -> Heard
    requires sound { IsReflectedSound sound.now }
    requires emission { IsEmission emission }
    ensures energy { result.energy ≡ pick_of (counts_at sound.now band)
        (enc (sound_energy downwind_energy band emission sound.now)) (enc (Const (pos 0) 1)) }
    ensures long { result.long ≡ pick_of (counts_at sound.now band)
        (enc (sound_energy (long_term_energy band) band emission sound.now)) (enc (Const (pos 0) 1)) }
    ensures energy_bounds { IsSumOf 1 result.energy }
    ensures long_bounds { IsSumOf 1 result.long }
{
    let path = &sound.path;
    let level = level_before(path, band, sound.sends(path.power_of(emission)));
    let heard = heard_over(level, path, band);
    let counts = sound.counts_in(band);
    Heard {
        energy: pick(counts, heard.energy, exact(0)),
        long: pick(counts, heard.long, exact(0)),
    }
}

/// What is heard, and beside it the sound of a level that goes round a side, where it does, with the quantities of the
/// direct path.
fn with_lateral(
    heard: Heard,
    level: Iv,
    screening: Option<Iv>,
    direct: &Propagation,
    band: Band,
) -> Heard
    requires energy { IsSmall heard.energy }
    requires long { IsSmall heard.long }
    requires level { IsUnscreened level }
    requires screening { IfSome screening IsScreening }
    requires direct { IsPropagation direct.now }
    ensures energy { result.energy ≡ with_energy heard.energy
        (option_map (λ i. enc (energy_form (past level i (loss_in direct.now.foliage band)))) screening) }
    ensures long { result.long ≡ with_energy heard.long
        (option_map (λ i. enc (long_term_energy band (Known direct.now.correction)
        (past level i (loss_in direct.now.foliage band)))) screening) }
    ensures energy_bounds { (n : ℕ) → n < 8 → IsSumOf n heard.energy → IsSumOf (n + 1) result.energy }
    ensures long_bounds { (n : ℕ) → n < 8 → IsSumOf n heard.long → IsSumOf (n + 1) result.long }
{
    match screening {
        Some(screening) => both(
            heard,
            heard_behind(past_screens(level, screening), direct, band),
        ),
        None => heard,
    }
}

/// What is heard of two sounds.
fn both(a: Heard, b: Heard) -> Heard
    requires first_energy { IsSmall a.energy }
    requires first_long { IsSmall a.long }
    requires second_energy { IsSmall b.energy }
    requires second_long { IsSmall b.long }
    ensures energy { result.energy ≡ add_of a.energy b.energy }
    ensures long { result.long ≡ add_of a.long b.long }
{
    Heard {
        energy: plus(a.energy, b.energy),
        long: plus(a.long, b.long),
    }
}

/// The level of what is sent in a band, at the end of a path, before what screens it and foliage are taken off, in dB.
#[inline(always)]
fn level_before(propagation: &Propagation, band: Band, power: Iv) -> Iv
    requires propagation { IsPropagation propagation.now }
    requires power { IsSentOn propagation.now.omega power }
    ensures value { result ≡ enc (level_form propagation.now band power) }
    ensures range { IsUnscreened result }
{
    let absorption = a_atm(propagation.distance, coefficient(propagation.air, band));
    let in_the_open = minus(minus(power, propagation.divergence), absorption);
    minus(in_the_open, propagation.ground_in(band))
}

/// The energies of a level in a band at the end of a path, past what screens it over the top.
#[inline(always)]
fn heard_over(level: Iv, path: &Propagation, band: Band) -> Heard
    requires level { IsUnscreened level }
    requires path { IsPropagation path.now }
    ensures energy { result.energy ≡ enc (energy_form (past level
        (screening_at path.now band) (loss_in path.now.foliage band))) }
    ensures long { result.long ≡ enc (long_term_energy band (Known path.now.correction)
        (past level (screening_at path.now band) (loss_in path.now.foliage band))) }
    ensures energy_bounds { IsSumOf 1 result.energy }
    ensures long_bounds { IsSumOf 1 result.long }
{
    heard_behind(path.past_screens(level, band), path, band)
}

/// The energies in a band of a level that is screened, with the foliage and the weather of a path.
#[inline(always)]
fn heard_behind(screened: Iv, path: &Propagation, band: Band) -> Heard
    requires level { IsScreened screened }
    requires path { IsPropagation path.now }
    ensures energy { result.energy
        ≡ enc (energy_form (Sub (Known screened) (Known (loss_in path.now.foliage band)))) }
    ensures long { result.long ≡ enc (long_term_energy band (Known path.now.correction)
        (Sub (Known screened) (Known (loss_in path.now.foliage band)))) }
    ensures energy_bounds { IsSumOf 1 result.energy }
    ensures long_bounds { IsSumOf 1 result.long }
{
    heard_at(path.foliage.off(screened, band), path.correction, band)
}

/// The energies of a level in a band, where C_met is this.
#[inline(always)]
fn heard_at(level: Iv, c_met: Iv, band: Band) -> Heard
    requires level { IsAtReceiver level }
    requires weather { IsWeatherCorrection c_met }
    ensures energy { result.energy ≡ enc (energy_form (Known level)) }
    ensures long { result.long ≡ enc (long_term_energy band (Known c_met) (Known level)) }
    ensures energy_bounds { IsSumOf 1 result.energy }
    ensures long_bounds { IsSumOf 1 result.long }
{
    let energy = energy_at(level);
    let long = long_energy_at(level, c_met, band, energy);
    Heard { energy, long }
}

/// The energy of a level.
fn energy_at(level: Iv) -> Iv
    requires { IsHearable level }
    ensures value { result ≡ enc (energy_form (Known level)) }
    ensures bounds { IsSumOf 1 result }
{
    energy(level)
}

/// The energy of a level with the A-weight of its band and less C_met: the energy without them, where both are 0.
fn long_energy_at(level: Iv, c_met: Iv, band: Band, energy: Iv) -> Iv
    requires level { IsAtReceiver level }
    requires weather { IsWeatherCorrection c_met }
    requires energy { energy ≡ enc (energy_form (Known level)) }
    requires bounds { IsSumOf 1 energy }
    ensures value { result ≡ enc (long_term_energy band (Known c_met) (Known level)) }
    ensures bounds { IsSumOf 1 result }
{
    if weight_of(band) == 0 && is_nothing(c_met) {
        energy
    } else {
        energy_at(minus(plus(level, weight_in_decibels(band)), c_met))
    }
}

/// Whether an interval is that of 0 alone.
fn is_nothing(i: Iv) -> bool
    ensures { result ≡ true → i ≡ enc (Const (pos 0) 1) }
{
    matches!((i.low(), i.high()), (Some(0), Some(0)))
}

/// The A-weight of a band in dB.
#[tactic(auto, unfolding(fix_interval::specs::Values::ratio_of, fix_interval::specs::Units::unit))]
fn weight_in_decibels(band: Band) -> Iv
    ensures value { result ≡ enc (Const (weight_in band) 10) }
    ensures bounds { IsWeight result }
{
    match band {
        Band::Hz63 => Iv::of_ends(Some(-112_528_143_156), Some(-112_528_143_155)),
        Band::Hz125 => Iv::of_ends(Some(-69_148_973_466), Some(-69_148_973_465)),
        Band::Hz250 => Iv::of_ends(Some(-36_936_718_746), Some(-36_936_718_745)),
        Band::Hz500 => Iv::of_ends(Some(-13_743_895_348), Some(-13_743_895_347)),
        Band::Hz1000 => Iv::of_ends(Some(0), Some(0)),
        Band::Hz2000 => Iv::of_ends(Some(5_153_960_755), Some(5_153_960_756)),
        Band::Hz4000 => Iv::of_ends(Some(4_294_967_296), Some(4_294_967_296)),
        Band::Hz8000 => Iv::of_ends(Some(-4_724_464_026), Some(-4_724_464_025)),
    }
}

/// What is heard of no sound.
fn silence() -> Heard
    ensures energy { result.energy ≡ enc (Const (pos 0) 1) }
    ensures long { result.long ≡ enc (Const (pos 0) 1) }
    ensures energy_bounds { IsSumOf most_sounds result.energy }
    ensures long_bounds { IsSumOf most_sounds result.long }
{
    Heard {
        energy: exact(0),
        long: exact(0),
    }
}
