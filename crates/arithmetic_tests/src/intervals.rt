//! Values of the table at the ends where it turns, each calculated by an independent exact model.

use fix_interval::{
    Iv, OPEN_HI, OPEN_LO, add, div, exact, hull, less, max, min, mul, over, pick, ratio, root, sub,
    times,
};
use std::process::Abort;

/// How many units are one.
const U: i128 = 1 << 32;

/// The limits of dividends, of roots and of all ends.
const P94: i128 = 1 << 94;

const P95: i128 = 1 << 95;

const END: i128 = 1 << 126;

#[derive(Clone, Copy)]
enum Op {
    Add,
    Sub,
    Mul,
    Div,
    Max,
    Min,
    Hull,
    /// The root of the first interval.
    Root,
    /// What the comparison of the two picks of them.
    Lesser,
}

/// An operation, the two ends of each of its intervals and those of its value.
const CASES: [(Op, [i128; 6]); 81] = [
    (Op::Add, [1, 1, -1, 1, 0, 2]),
    (Op::Add, [OPEN_LO, 5, 3, OPEN_HI, OPEN_LO, OPEN_HI]),
    (Op::Add, [END - 2, END - 1, 1, 1, END - 1, OPEN_HI]),
    (Op::Add, [-(END - 1), 0, -1, 7, OPEN_LO, 7]),
    (Op::Add, [-(END - 2), 0, -1, END - 1, -(END - 1), END - 1]),
    (Op::Sub, [10, 20, 3, 4, 6, 17]),
    (Op::Sub, [OPEN_LO, 20, 3, 4, OPEN_LO, 17]),
    (Op::Mul, [1, 1, 1, 1, 0, 1]),
    (Op::Mul, [-1, -1, 1, 1, -1, 0]),
    (
        Op::Mul,
        [2 * U, 3 * U, 4 * U + 1, 5 * U, 34359738370, 15 * U],
    ),
    (
        Op::Mul,
        [2 * U, 3 * U, -(4 * U + 1), 5 * U, -51539607555, 15 * U],
    ),
    (
        Op::Mul,
        [2 * U, 3 * U, -5 * U, -(4 * U + 1), -15 * U, -34359738370],
    ),
    (Op::Mul, [-3 * U, 2 * U, 4 * U + 1, 5 * U, -15 * U, 10 * U]),
    (
        Op::Mul,
        [-3 * U, 2 * U, -5 * U, 4 * U + 1, -51539607555, 15 * U],
    ),
    (
        Op::Mul,
        [-3 * U, 2 * U, -5 * U, -(4 * U + 1), -10 * U, 15 * U],
    ),
    (
        Op::Mul,
        [-3 * U, -2 * U, 4 * U + 1, 5 * U, -15 * U, -34359738370],
    ),
    (
        Op::Mul,
        [-3 * U, -2 * U, -(5 * U + 1), 4 * U, -12 * U, 64424509443],
    ),
    (
        Op::Mul,
        [-3 * U, -2 * U, -5 * U, -(4 * U + 1), 34359738370, 15 * U],
    ),
    (
        Op::Mul,
        [
            0,
            1 << 63,
            0,
            (1 << 63) - 1,
            0,
            19807040628566084396238503936,
        ],
    ),
    (Op::Mul, [0, 1 << 63, 0, 1 << 63, OPEN_LO, OPEN_HI]),
    (Op::Mul, [-(1 << 63), 0, -1, 1 << 63, OPEN_LO, OPEN_HI]),
    (
        Op::Mul,
        [
            -(1 << 63),
            5,
            -((1 << 63) - 1),
            5,
            -10737418240,
            19807040628566084396238503936,
        ],
    ),
    (
        Op::Mul,
        [
            1 << 64,
            (1 << 64) + 1,
            7,
            (1 << 62) - 1,
            7 * U,
            19807040628566084395164762112,
        ],
    ),
    (Op::Mul, [1 << 64, 1 << 64, 7, 1 << 62, OPEN_LO, OPEN_HI]),
    (Op::Mul, [1, OPEN_HI, 1, 1, OPEN_LO, OPEN_HI]),
    (Op::Div, [1, 1, 3 * U, 3 * U, 0, 1]),
    (Op::Div, [-1, 1, 3 * U, 3 * U, -1, 1]),
    (Op::Div, [U, 2 * U, 3 * U, 7 * U, 613566756, 2863311531]),
    (Op::Div, [-U, 2 * U, 3 * U, 7 * U, -1431655766, 2863311531]),
    (Op::Div, [-2 * U, -U, 3 * U, 7 * U, -2863311531, -613566756]),
    (Op::Div, [U, 2 * U, -7 * U, -3 * U, -2863311531, -613566756]),
    (
        Op::Div,
        [-U, 2 * U, -7 * U, -3 * U, -2863311531, 1431655766],
    ),
    (Op::Div, [-2 * U, -U, -7 * U, -3 * U, 613566756, 2863311531]),
    (Op::Div, [1, 1, 0, 1, OPEN_LO, OPEN_HI]),
    (Op::Div, [1, 1, -1, 0, OPEN_LO, OPEN_HI]),
    (Op::Div, [1, 1, -1, 1, OPEN_LO, OPEN_HI]),
    (Op::Div, [1, 1, 1, 1, U, U]),
    (Op::Div, [1, 1, -1, -1, -U, -U]),
    (
        Op::Div,
        [
            P94 - 1,
            P94 - 1,
            1,
            1,
            85070591730234615865843651853647085568,
            85070591730234615865843651853647085568,
        ],
    ),
    (Op::Div, [1, P94, 1, 1, OPEN_LO, OPEN_HI]),
    (Op::Div, [-P94, 1, 1, 1, OPEN_LO, OPEN_HI]),
    (
        Op::Div,
        [
            -(P94 - 1),
            1,
            -1,
            -1,
            -U,
            85070591730234615865843651853647085568,
        ],
    ),
    (
        Op::Div,
        [
            42949672959999999999,
            42949672960000000001,
            10 * U,
            10 * U,
            4294967295999999999,
            4294967296000000001,
        ],
    ),
    (Op::Div, [1, 1, 2, OPEN_HI, OPEN_LO, OPEN_HI]),
    (Op::Div, [5, 1 << 70, 1 << 65, (1 << 66) + 1, 0, 32 * U]),
    (Op::Max, [OPEN_LO, 3, 1, OPEN_HI, 1, OPEN_HI]),
    (Op::Min, [OPEN_LO, 3, 1, OPEN_HI, OPEN_LO, 3]),
    (Op::Hull, [OPEN_LO, 3, 1, OPEN_HI, OPEN_LO, OPEN_HI]),
    (Op::Max, [OPEN_LO, OPEN_HI, 1, 2, 1, OPEN_HI]),
    (Op::Min, [OPEN_LO, OPEN_HI, 1, 2, OPEN_LO, 2]),
    (Op::Hull, [OPEN_LO, OPEN_HI, 1, 2, OPEN_LO, OPEN_HI]),
    (Op::Max, [1, 4, 2, 3, 2, 4]),
    (Op::Min, [1, 4, 2, 3, 1, 3]),
    (Op::Hull, [1, 4, 2, 3, 1, 4]),
    (Op::Max, [-4, -1, -3, OPEN_HI, -3, OPEN_HI]),
    (Op::Min, [-4, -1, -3, OPEN_HI, -4, -1]),
    (Op::Hull, [-4, -1, -3, OPEN_HI, -4, OPEN_HI]),
    (Op::Root, [0, 0, OPEN_LO, OPEN_HI, 0, 0]),
    (Op::Root, [1, 1, OPEN_LO, OPEN_HI, 65536, 65536]),
    (Op::Root, [U - 1, U + 1, OPEN_LO, OPEN_HI, U - 1, U + 1]),
    (
        Op::Root,
        [100 * U, 100 * U, OPEN_LO, OPEN_HI, 10 * U, 10 * U],
    ),
    (
        Op::Root,
        [
            100 * U - 1,
            100 * U + 1,
            OPEN_LO,
            OPEN_HI,
            10 * U - 1,
            10 * U + 1,
        ],
    ),
    (Op::Root, [-5, 4 * U, OPEN_LO, OPEN_HI, 0, 2 * U]),
    (Op::Root, [-5, -1, OPEN_LO, OPEN_HI, OPEN_LO, OPEN_HI]),
    (Op::Root, [-5, 0, OPEN_LO, OPEN_HI, 0, 0]),
    (Op::Root, [OPEN_LO, 9 * U, OPEN_LO, OPEN_HI, 0, 3 * U]),
    (
        Op::Root,
        [
            P95 - 1,
            P95 - 1,
            OPEN_LO,
            OPEN_HI,
            13043817825332782212,
            13043817825332782213,
        ],
    ),
    (
        Op::Root,
        [
            P95 - 1,
            P95,
            OPEN_LO,
            OPEN_HI,
            13043817825332782212,
            OPEN_HI,
        ],
    ),
    (
        Op::Root,
        [
            P95,
            END - 1,
            OPEN_LO,
            OPEN_HI,
            13043817825332782212,
            OPEN_HI,
        ],
    ),
    (Op::Root, [OPEN_LO, OPEN_HI, OPEN_LO, OPEN_HI, 0, OPEN_HI]),
    (Op::Root, [7, OPEN_HI, OPEN_LO, OPEN_HI, 173391, OPEN_HI]),
    (Op::Lesser, [1, 2, 3, 4, 1, 2]),
    (Op::Lesser, [1, 3, 3, 4, 1, 4]),
    (Op::Lesser, [3, 4, 1, 3, 1, 3]),
    (Op::Lesser, [3, 4, 1, 2, 1, 2]),
    (Op::Lesser, [1, 2, 2, 2, 1, 2]),
    (Op::Lesser, [2, 2, 2, 2, 2, 2]),
    (Op::Lesser, [OPEN_LO, 2, 3, OPEN_HI, OPEN_LO, 2]),
    (Op::Lesser, [3, OPEN_HI, OPEN_LO, 3, OPEN_LO, 3]),
    (Op::Lesser, [1, OPEN_HI, 5, 6, 1, OPEN_HI]),
    (Op::Lesser, [OPEN_LO, OPEN_HI, 1, 1, OPEN_LO, OPEN_HI]),
];

/// A numerator, a divisor and the two ends of their fraction.
const FRACTIONS: [[i128; 4]; 14] = [
    [0, 1, 0, 0],
    [1, 3, 1431655765, 1431655766],
    [-1, 3, -1431655766, -1431655765],
    [1, U, 1, 1],
    [1, U + 1, 0, 1],
    [-1, U + 1, -1, 0],
    [15, 10, 6442450944, 6442450944],
    [
        P94 - 1,
        1,
        85070591730234615865843651853647085568,
        85070591730234615865843651853647085568,
    ],
    [P94, 1, OPEN_LO, OPEN_HI],
    [
        -(P94 - 1),
        7,
        -12152941675747802266549093121949583653,
        -12152941675747802266549093121949583652,
    ],
    [-P94, 7, OPEN_LO, OPEN_HI],
    [1, END, 0, 1],
    [-1, i128::MAX, -1, 0],
    [340, 63, 23179188581, 23179188582],
];

/// Whole numbers and their two equal ends.
const WHOLES: [(i64, i128); 6] = [
    (0, 0 * U),
    (1, 1 * U),
    (-1, -1 * U),
    (i64::MAX, ((1 << 63) - 1) * U),
    (i64::MIN, -(1 << 63) * U),
    (1000, 1000 * U),
];

/// The interval with these ends, or that of all numbers where there is none.
fn interval(lo: i128, hi: i128) -> Iv {
    let low = if lo == OPEN_LO { None } else { Some(lo) };
    let high = if hi == OPEN_HI { None } else { Some(hi) };
    let small = |end: i128| -> bool { -END < end && end < END };
    if low.is_some_and(|end| !small(end)) || high.is_some_and(|end| !small(end)) || hi < lo {
        return Iv::ALL;
    }
    Iv::of_ends(low, high)
}

fn value(op: Op, a: Iv, b: Iv) -> Iv {
    match op {
        Op::Add => add(a, b),
        Op::Sub => sub(a, b),
        Op::Mul => mul(a, b),
        Op::Div => div(a, b),
        Op::Max => max(a, b),
        Op::Min => min(a, b),
        Op::Hull => hull(a, b),
        Op::Root => root(a),
        Op::Lesser => pick(less(a, b), a, b),
    }
}

fn expect_ends(rt: &impl Abort, got: Iv, lo: i128, hi: i128) {
    assert_eq!(rt; got.lo(), lo);
    assert_eq!(rt; got.hi(), hi);
}

/// Asserts the value of an operation on two intervals by all their ends.
fn expect_value(rt: &impl Abort, op: Op, ends: [i128; 6]) {
    let [a_lo, a_hi, b_lo, b_hi, lo, hi] = ends;
    let found = value(op, interval(a_lo, a_hi), interval(b_lo, b_hi));
    expect_ends(rt, found, lo, hi);
}

#[test]
fn values_are_those_of_the_model(rt: HostRuntime) {
    for (op, ends) in &CASES {
        expect_value(&rt, *op, *ends);
    }
}

/// Asserts the ends of a fraction.
fn expect_fraction(rt: &impl Abort, row: [i128; 4]) {
    let [p, q, lo, hi] = row;
    assert!(rt; 0 < q);
    expect_ends(rt, ratio(p, q), lo, hi);
}

#[test]
fn fractions_and_whole_numbers_are_those_of_the_model(rt: HostRuntime) {
    for row in &FRACTIONS {
        expect_fraction(&rt, *row);
    }
    for (n, end) in &WHOLES {
        expect_ends(&rt, exact(*n), *end, *end);
    }
}

fn is(rt: &impl Abort, found: Iv, low: Option<i128>, high: Option<i128>) {
    assert_eq!(rt; (found.low(), found.high()), (low, high));
}

fn thirds(rt: &impl Abort) {
    let few = Iv::of_ends(Some(-7), Some(5));
    is(rt, times(few, 3), Some(-21), Some(15));
    is(rt, over(few, 3), Some(-3), Some(2));
}

fn long_thirds(rt: &impl Abort) {
    let many = Iv::of_ends(Some(1 << 70), Some(1 << 70));
    is(rt, times(many, 3), Some(3 << 70), Some(3 << 70));
    let (low, high) = (393_530_540_239_137_101_141, 393_530_540_239_137_101_142);
    is(rt, over(many, 3), Some(low), Some(high));
}

// -7 and 5 units, 2^70 units, and unbounded ends, times 3 and over 3.
#[test]
fn a_whole_factor_takes_short_and_long_ends(rt: HostRuntime) {
    thirds(&rt);
    long_thirds(&rt);
    is(&rt, times(Iv::ALL, 3), None, None);
    is(&rt, over(Iv::ALL, 3), None, None);
}
