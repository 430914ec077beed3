//! Energies and levels with ends from outside, by an independent program.
use crate::ends::{between, has_ends};
use energy_sum::{Sum, c_met, energy, level};

// Ends of levels and of energies, as an independent calculation on whole numbers gives them.
#[test]
fn energies_and_levels_have_these_ends(rt: HostRuntime) {
    let energies = [
        (0, 0, 4_294_967_296, 4_294_967_296),
        (
            42_949_672_960,
            42_949_672_960,
            42_949_672_960,
            42_949_672_960,
        ),
        (
            206_158_430_213,
            206_158_430_214,
            270_994_116_000_400,
            270_994_116_145_684,
        ),
        (
            -12_884_901_888,
            -12_884_901_887,
            2_152_582_777,
            2_152_582_779,
        ),
        (
            816_043_786_240,
            816_043_786_240,
            42_949_672_960_000_000_000_000_000_000,
            42_949_672_960_000_000_000_000_000_000,
        ),
    ];
    for (low, high, lo, hi) in energies {
        has_ends(&rt, energy(between(low, high)), lo, hi);
    }
    has_ends(&rt, level(&Sum::zero()), 0, 0);
}

// The plan length in units of 2^-32 m, the heights in mm, C_0 in 0.01 dB, and the ends of C_met, by an independent
// calculation: beyond, at, around, below and just above ten times the sum of the heights, and where the length isn't
// known well enough.
const CORRECTIONS: [((i64, i64), (u32, u32), u16, (Option<i128>, Option<i128>)); 8] = [
    (
        (429_496_729_600, 429_496_729_600),
        (2_000, 2_000),
        200,
        (Some(5_153_960_754), Some(5_153_960_756)),
    ),
    (
        (171_798_691_840, 171_798_691_840),
        (2_000, 2_000),
        200,
        (Some(0), Some(0)),
    ),
    (
        (171_798_691_839, 171_798_691_841),
        (2_000, 2_000),
        200,
        (Some(-2), Some(2)),
    ),
    (
        (167_503_724_544, 167_503_724_547),
        (2_000, 2_000),
        1_000,
        (Some(0), Some(0)),
    ),
    (
        (171_798_691_841, 171_798_691_842),
        (2_000, 2_000),
        1_000,
        (Some(0), Some(10)),
    ),
    ((0, 0), (1, 1), 1_000, (Some(0), Some(0))),
    (
        (72_057_594_037_927_936, 72_057_594_037_927_936),
        (100_000, 100_000),
        1_000,
        (Some(42_944_552_960), Some(42_944_552_960)),
    ),
    ((0, 4_294_967_296), (1, 1), 1_000, (None, None)),
];

#[test]
fn corrections_have_these_ends(rt: HostRuntime) {
    for ((low, high), (hs, hr), c0, ends) in &CORRECTIONS {
        let found = c_met(between(*low, *high), *hs, *hr, *c0);
        assert_eq!(rt; (found.low(), found.high()), *ends);
    }
}
