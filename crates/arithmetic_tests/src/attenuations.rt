//! Divergence and absorption with ends from outside, by an independent program.
use crate::ends::{between, has_ends};
use term_div_atm::{a_atm, a_div};

// Ends of a distance, and the ends that an independent calculation on whole numbers gives.
#[test]
fn divergences_have_these_ends(rt: HostRuntime) {
    let divergences = [
        (0, 0, 47_244_640_256, 47_244_640_256),
        (4_294_967_296, 4_294_967_296, 47_244_640_256, 47_244_640_256),
        (
            429_496_729_600,
            429_496_729_600,
            219_043_332_096,
            219_043_332_096,
        ),
        (
            429_496_729_593,
            429_496_729_609,
            219_043_332_076,
            219_043_332_116,
        ),
        (
            17_179_869_184_000_000,
            17_179_869_184_000_001,
            614_357_275_216,
            614_357_275_236,
        ),
    ];
    for (low, high, lo, hi) in divergences {
        has_ends(&rt, a_div(between(low, high)), lo, hi);
    }
}

// The same with a coefficient of absorption, in 0.1 dB a kilometre.
#[test]
fn absorptions_have_these_ends(rt: HostRuntime) {
    let absorptions = [
        (0, 0, 1, 429_496, 429_497),
        (
            429_496_729_600,
            429_496_729_600,
            37,
            1_589_137_899,
            1_589_137_900,
        ),
        (
            429_496_729_593,
            429_496_729_609,
            1170,
            50_251_117_362,
            50_251_117_365,
        ),
        (
            17_179_869_184_000,
            17_179_869_184_001,
            328,
            563_499_709_235,
            563_499_709_236,
        ),
    ];
    for (low, high, alpha10, lo, hi) in absorptions {
        has_ends(&rt, a_atm(between(low, high), alpha10), lo, hi);
    }
}
