//! The ends of logarithms.
use enclose_log::lg;
use fix_interval::Iv;

/// An end, and the ends of its logarithm, as an independent calculation on whole numbers gives them.
const ENDS: [(i128, i128, i128); 20] = [
    (1, -41373247568, -41373247567),
    (2, -40080333582, -40080333581),
    (429496729, -4294967299, -4294967298),
    (429496730, -4294967295, -4294967294),
    (4294967295, -1, 0),
    (4294967296, 0, 0),
    (4294967297, 0, 1),
    (12884901888, 2049220185, 2049220186),
    (42949672959, 4294967295, 4294967296),
    (42949672960, 4294967296, 4294967296),
    (42949672961, 4294967296, 4294967297),
    (429496729600, 8589934592, 8589934592),
    (12345678901234567, 27739283002, 27739283003),
    (18446744073709551615, 41373247567, 41373247568),
    (18446744073709551616, 41373247567, 41373247568),
    (429496729600000000000000000001, 85899345920, 85899345921),
    (
        42949672959999999999999999999999999999,
        120259084287,
        120259084288,
    ),
    (
        42949672960000000000000000000000000000,
        120259084288,
        120259084288,
    ),
    (
        42949672960000000000000000000000000001,
        120259084288,
        120259084289,
    ),
    (
        85070591730234615865843651857942052863,
        121533914730,
        121533914731,
    ),
];

#[test]
fn gives_the_exact_ends(rt: HostRuntime) {
    for (end, low, high) in ENDS {
        assert!(rt; 1 <= end && end < 1 << 126);
        let bounded = lg(Iv::of_ends(Some(end), Some(end)));
        assert_eq!(rt; bounded.low(), Some(low), "the low end of {end}");
        assert_eq!(rt; bounded.high(), Some(high), "the high end of {end}");
        let open = lg(Iv::of_ends(Some(end), None));
        assert_eq!(rt; open.low(), Some(low), "the low end from {end}");
        assert_eq!(rt; open.high(), None, "the high end from {end}");
    }
}
