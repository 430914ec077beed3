//! Ten to the power of an interval, and decays.
use enclose_exp::{exp_neg, ten};
use fix_interval::Iv;
use std::process::Abort;

/// An exponent, and the ends of its power, as an independent calculation on whole numbers gives them.
const POWERS: [(i128, i128, Option<i128>); 16] = [
    (-85_899_345_920, 0, Some(1)),
    (-81_604_378_625, 0, Some(1)),
    (-81_604_378_624, 0, Some(1)),
    (-51_539_595_207, 0, Some(1)),
    (-4_294_967_296, 429_496_729, Some(429_496_730)),
    (-1, 4_294_967_293, Some(4_294_967_294)),
    (0, 4_294_967_296, Some(4_294_967_296)),
    (1, 4_294_967_298, Some(4_294_967_299)),
    (2_147_483_648, 13_581_879_131, Some(13_581_879_132)),
    (4_294_967_295, 42_949_672_936, Some(42_949_672_937)),
    (4_294_967_296, 42_949_672_960, Some(42_949_672_960)),
    (4_294_967_297, 42_949_672_983, Some(42_949_672_984)),
    (14_119_469_778, 8_325_399_789_730, Some(8_325_399_789_731)),
    (
        81_604_378_624,
        42_949_672_960_000_000_000_000_000_000,
        Some(42_949_672_960_000_000_000_000_000_000),
    ),
    (
        85_899_345_919,
        429_496_729_369_741_478_897_631_168_365,
        Some(429_496_729_369_741_502_478_718_757_630),
    ),
    (
        85_899_345_920,
        429_496_729_600_000_000_000_000_000_000,
        None,
    ),
];

/// Asserts that an interval has these ends, in units of 2^-32.
fn has(rt: &impl Abort, found: Iv, low: i128, high: Option<i128>) {
    assert_eq!(rt; (found.low(), found.high()), (Some(low), high));
}

/// The power of one exponent.
fn power(rt: &impl Abort, exponent: i128) -> Iv {
    assert!(rt; -(1 << 126) < exponent && exponent < 1 << 126);
    ten(Iv::of_ends(Some(exponent), Some(exponent)))
}

#[test]
fn powers_have_these_ends(rt: HostRuntime) {
    for (exponent, low, high) in &POWERS {
        has(&rt, power(&rt, *exponent), *low, *high);
    }
    has(&rt, ten(Iv::ALL), 0, None);
}

/// An exponent, and the ends of its decay, as an independent calculation on whole numbers gives them.
const DECAYS: [(i128, i128, i128); 12] = [
    (0, 4_294_967_296, 4_294_967_296),
    (1, 4_294_967_294, 4_294_967_296),
    (2_147_483_648, 2_605_029_347, 2_605_029_348),
    (4_294_967_295, 1_580_030_169, 1_580_030_170),
    (4_294_967_296, 1_580_030_168, 1_580_030_169),
    (4_294_967_297, 1_580_030_168, 1_580_030_169),
    (13_008_358_677, 207_774_778, 207_774_779),
    (94_489_280_512, 1, 2),
    (98_784_247_807, 0, 1),
    (98_784_247_808, 0, 1),
    (98_784_247_809, 0, 1),
    (85_070_591_730_234_615_865_843_651_857_942_052_863, 0, 1),
];

/// The decays of one exponent, and of all from it on.
fn decays(rt: &impl Abort, exponent: i128) -> (Iv, Iv) {
    assert!(rt; 0 <= exponent && exponent < 1 << 126);
    (
        exp_neg(Iv::of_ends(Some(exponent), Some(exponent))),
        exp_neg(Iv::of_ends(Some(exponent), None)),
    )
}

#[test]
fn decays_have_these_ends(rt: HostRuntime) {
    for (exponent, low, high) in &DECAYS {
        let (one, open) = decays(&rt, *exponent);
        has(&rt, one, *low, Some(*high));
        has(&rt, open, 0, Some(*high));
    }
}
