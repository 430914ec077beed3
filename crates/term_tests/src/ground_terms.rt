//! Values from outside, by an independent exact program: the ends of the ground factors and of the attenuations.

ghost use Rattle.path_shape.specs.Shape.{IsPath};

use crate::shared::{End, Wall, direct, has_ends, name, outline, reflected};
use path_shape::Path;
use scene_parts::{Checked, Part, PartFault, RawPart, Zone, check};
use std::alloc::{AllocError, Global};
use std::process::Abort;
use std::test::Fail;
use term_ground::{Region, a_gr, region_share};

/// The corners of a zone and its ground factor.
type Ground = (&'static [(i64, i64)], i64);

struct Case {
    zones: &'static [Ground],
    g0: u8,
    source: End,
    receiver: End,
    /// The ground factors of the source, middle and receiver region, in units of 2^-32.
    shares: [(i128, i128); 3],
    /// The attenuations from 63 Hz to 1 kHz, and at 2 kHz, which is that of the higher bands too, in units of 2^-32 dB.
    bands: [(i128, i128); 6],
}

const CASES: &[Case] = &[
    // No zone, with a middle region of half the path.
    Case {
        zones: &[],
        g0: 0,
        source: (0, 0, 2000),
        receiver: (240000, 0, 2000),
        shares: [(0, 0), (0, 0), (0, 0)],
        bands: [
            (-19327352832, -19327352832),
            (-19327352832, -19327352832),
            (-19327352832, -19327352832),
            (-19327352832, -19327352832),
            (-19327352832, -19327352832),
            (-19327352832, -19327352832),
        ],
    },
    // Exactly 30 times the sum of the heights, and one millimetre more: no middle region, and one of 1 mm.
    Case {
        zones: &[(
            &[
                (-1000, -1000),
                (200000, -1000),
                (200000, 1000),
                (-1000, 1000),
            ],
            70,
        )],
        g0: 20,
        source: (0, 0, 2000),
        receiver: (120000, 0, 2000),
        shares: [
            (3006477105, 3006477110),
            (858993459, 858993460),
            (3006477105, 3006477110),
        ],
        bands: [
            (-12884901888, -12884901888),
            (2649671178, 2649671226),
            (28939446968, 28939447074),
            (8291145514, 8291145574),
            (-3118512234, -3118512208),
            (-3865470574, -3865470558),
        ],
    },
    Case {
        zones: &[(
            &[
                (-1000, -1000),
                (200000, -1000),
                (200000, 1000),
                (-1000, 1000),
            ],
            70,
        )],
        g0: 20,
        source: (0, 0, 2000),
        receiver: (120001, 0, 2000),
        shares: [
            (3006477103, 3006477111),
            (3006237111, 3006717118),
            (3006477103, 3006477111),
        ],
        bands: [
            (-12885009264, -12885009261),
            (2649665497, 2649665577),
            (28939480175, 28939480343),
            (8291137535, 8291137633),
            (-3118542969, -3118542919),
            (-3865502799, -3865502759),
        ],
    },
    // A zone that holds the whole line, one that holds half of the source region.
    Case {
        zones: &[(
            &[
                (-50000, -50000),
                (150000, -50000),
                (150000, 50000),
                (-50000, 50000),
            ],
            100,
        )],
        g0: 0,
        source: (0, 0, 2000),
        receiver: (100000, 0, 2000),
        shares: [(4294967294, 4294967296), (0, 0), (4294967294, 4294967296)],
        bands: [
            (-12884901888, -12884901888),
            (8510164220, 8510164258),
            (44564601960, 44564602036),
            (16514437396, 16514437440),
            (1014722894, 1014722912),
            (-6, 0),
        ],
    },
    Case {
        zones: &[(
            &[(0, -50000), (30000, -50000), (30000, 50000), (0, 50000)],
            100,
        )],
        g0: 0,
        source: (0, 0, 2000),
        receiver: (100000, 0, 2000),
        shares: [(2147483646, 2147483649), (0, 0), (0, 0)],
        bands: [
            (-12884901888, -12884901888),
            (-7536135364, -7536135349),
            (1477474067, 1477474100),
            (-5535067071, -5535067052),
            (-9409995694, -9409995686),
            (-9663676419, -9663676414),
        ],
    },
    // Zones that overlap, so that the sum is cut at 1, and at 0.
    Case {
        zones: &[
            (
                &[
                    (-10000, -20000),
                    (90000, -20000),
                    (90000, 30000),
                    (-10000, 30000),
                ],
                100,
            ),
            (
                &[
                    (20000, -40000),
                    (150000, -40000),
                    (150000, 10000),
                    (20000, 10000),
                ],
                90,
            ),
            (
                &[(-5000, -5000), (5000, -5000), (5000, 5000), (-5000, 5000)],
                60,
            ),
        ],
        g0: 30,
        source: (0, 0, 1500),
        receiver: (170000, 3000, 2500),
        shares: [
            (4294967296, 4294967296),
            (4294967296, 4294967296),
            (3178168800, 3178168809),
        ],
        bands: [
            (-16675994796, -16675994793),
            (7899311475, 7899311530),
            (42538311024, 42538311119),
            (21398410403, 21398410456),
            (1120200113, 1120200140),
            (-1675197744, -1675197730),
        ],
    },
    Case {
        zones: &[
            (
                &[
                    (-10000, -20000),
                    (190000, -20000),
                    (190000, 30000),
                    (-10000, 30000),
                ],
                10,
            ),
            (
                &[
                    (20000, -40000),
                    (150000, -40000),
                    (150000, 10000),
                    (20000, 10000),
                ],
                0,
            ),
        ],
        g0: 40,
        source: (0, 0, 1500),
        receiver: (170000, 3000, 2500),
        shares: [(0, 0), (0, 0), (0, 0)],
        bands: [
            (-16675994796, -16675994793),
            (-16675994796, -16675994793),
            (-16675994796, -16675994793),
            (-16675994796, -16675994793),
            (-16675994796, -16675994793),
            (-16675994796, -16675994793),
        ],
    },
    // One zone in another; both wind clockwise.
    Case {
        zones: &[
            (
                &[
                    (10000, 60000),
                    (210000, 60000),
                    (210000, -60000),
                    (10000, -60000),
                ],
                80,
            ),
            (
                &[
                    (40000, 20000),
                    (120000, 20000),
                    (120000, -10000),
                    (40000, -10000),
                ],
                5,
            ),
        ],
        g0: 10,
        source: (0, 0, 500),
        receiver: (200000, -7000, 4000),
        shares: [
            (1430428473, 1430428533),
            (3303746433, 3303746454),
            (3364478704, 3364478715),
        ],
        bands: [
            (-17077817214, -17077817211),
            (3826840012, 3826840241),
            (11878152985, 11878153658),
            (10893563067, 10893563958),
            (-1053445476, -1053445101),
            (-6660209760, -6660209630),
        ],
    },
    // A zone that crosses itself, on an oblique line that it meets four times.
    Case {
        zones: &[(
            &[
                (20000, -30000),
                (120000, 40000),
                (150000, -20000),
                (60000, 30000),
                (90000, -40000),
            ],
            65,
        )],
        g0: 15,
        source: (-30000, -20000, 3000),
        receiver: (230000, 40000, 1000),
        shares: [
            (644245088, 644245101),
            (1240186581, 1240186595),
            (644245094, 644245095),
        ],
        bands: [
            (-19975218414, -19975218411),
            (-13621079794, -13621079707),
            (-8502973162, -8502973047),
            (-10185784399, -10185784329),
            (-14690806154, -14690806099),
            (-15995129855, -15995129806),
        ],
    },
    // Corners on the line: from the left and from the right, and a side along the line.
    Case {
        zones: &[
            (&[(50000, 0), (70000, 30000), (30000, 30000)], 100),
            (&[(90000, 0), (70000, -30000), (110000, -30000)], 100),
            (
                &[(130000, 0), (160000, 0), (160000, 20000), (130000, 20000)],
                100,
            ),
        ],
        g0: 0,
        source: (0, 0, 2000),
        receiver: (200000, 0, 3000),
        shares: [(0, 4), (0, 9), (1431655759, 1431655770)],
        bands: [
            (-16106127360, -16106127360),
            (-10965021531, -10965021466),
            (-8581763059, -8581762956),
            (-13645344473, -13645344426),
            (-13956510702, -13956510668),
            (-13958643722, -13958643692),
        ],
    },
    // Zones behind the source and behind the receiver, which don't count.
    Case {
        zones: &[
            (
                &[
                    (-90000, -9000),
                    (-10000, -9000),
                    (-10000, 9000),
                    (-90000, 9000),
                ],
                100,
            ),
            (
                &[
                    (260000, -9000),
                    (300000, -9000),
                    (300000, 9000),
                    (260000, 9000),
                ],
                100,
            ),
            (
                &[
                    (100000, -9000),
                    (150000, -9000),
                    (150000, 9000),
                    (100000, 9000),
                ],
                50,
            ),
        ],
        g0: 25,
        source: (0, 0, 2000),
        receiver: (250000, 100, 2000),
        shares: [
            (1073741819, 1073741829),
            (1486719416, 1486719421),
            (1073741824, 1073741824),
        ],
        bands: [
            (-19585051365, -19585051362),
            (-10500417511, -10500417460),
            (-1246424349, -1246424249),
            (-9301906297, -9301906239),
            (-13753134027, -13753133996),
            (-14044543441, -14044543414),
        ],
    },
    // Source and receiver at one place in plan.
    Case {
        zones: &[(
            &[(-5000, -5000), (5000, -5000), (5000, 5000), (-5000, 5000)],
            100,
        )],
        g0: 35,
        source: (1000, 1000, 2000),
        receiver: (1000, 1000, 8000),
        shares: [
            (1503238553, 1503238554),
            (1503238553, 1503238554),
            (1503238553, 1503238554),
        ],
        bands: [
            (-12884901888, -12884901888),
            (-8375186230, -8375186226),
            (-8375186230, -8375186226),
            (-8375186230, -8375186226),
            (-8375186230, -8375186226),
            (-8375186230, -8375186226),
        ],
    },
    // The least and the greatest height.
    Case {
        zones: &[(&[(100, -500), (400, -500), (400, 700), (100, 700)], 90)],
        g0: 50,
        source: (0, 0, 1),
        receiver: (300, 1, 1),
        shares: [
            (2147483617, 2147483679),
            (3364390544, 3364390558),
            (3865470536, 3865470597),
        ],
        bands: [
            (-23192837727, -23192837709),
            (-6093470386, -6093470141),
            (-5789516809, -5789516552),
            (-5595279523, -5595279247),
            (-5919008604, -5919008360),
            (-6098857969, -6098857744),
        ],
    },
    Case {
        zones: &[(
            &[
                (-3000000, -1000),
                (900000, -1000),
                (900000, 400000),
                (-3000000, 400000),
            ],
            55,
        )],
        g0: 45,
        source: (-3500000, 0, 100000),
        receiver: (3500000, 9000, 100000),
        shares: [
            (2290649162, 2290649169),
            (2362232005, 2362232022),
            (1990001203, 1990001210),
        ],
        bands: [
            (-14725611288, -14725611285),
            (-7292245575, -7292245533),
            (-7292245575, -7292245533),
            (-7292245575, -7292245529),
            (-7292245575, -7292245537),
            (-7292245575, -7292245543),
        ],
    },
    // The largest distance, over a zone that covers a third of the middle region.
    Case {
        zones: &[(
            &[
                (-2000000, -2100000),
                (700000, 500000),
                (600000, 900000),
                (-2500000, -1800000),
            ],
            85,
        )],
        g0: 5,
        source: (-4000000, -4000000, 1),
        receiver: (4000000, 4000000, 100000),
        shares: [
            (214371215, 215125514),
            (1806002361, 1806002370),
            (214748364, 214748365),
        ],
        bands: [
            (-22353144048, -22353144045),
            (-16474165045, -16468621267),
            (-15884545763, -15876927316),
            (-14726942416, -14715250758),
            (-16656282935, -16651379968),
            (-17728138045, -17727006571),
        ],
    },
];

/// Paths by way of a wall, whose side has these ends.
const REFLECTED: &[(Wall, Case)] = &[
    // Ground that only the second leg crosses.
    (
        [(49999, 30000), (149999, 30000)],
        Case {
            zones: &[(
                &[(75000, 5000), (95000, 5000), (95000, 20000), (75000, 20000)],
                100,
            )],
            g0: 0,
            source: (0, 0, 500),
            receiver: (100000, 0, 800),
            shares: [(0, 0), (285233157, 285233160), (2555818143, 2555818157)],
            bands: [
                (-21460806012, -21460806009),
                (-15710017068, -15710017019),
                (1678151305, 1678151456),
                (7011479307, 7011479493),
                (-10571153407, -10571153332),
                (-17057544262, -17057544230),
            ],
        },
    ),
    // Ground below both legs, with a winding to the right.
    (
        [(49999, 30000), (149999, 30000)],
        Case {
            zones: &[(
                &[
                    (40000, 40000),
                    (60000, 40000),
                    (60000, 20000),
                    (40000, 20000),
                ],
                80,
            )],
            g0: 20,
            source: (0, 0, 500),
            receiver: (100000, 0, 800),
            shares: [
                (858993451, 858993468),
                (1633352376, 1633352386),
                (858993454, 858993465),
            ],
            bands: [
                (-21460806012, -21460806009),
                (-14785839400, -14785839313),
                (-2803624252, -2803623964),
                (2145988939, 2145989316),
                (-10345714954, -10345714793),
                (-15622456613, -15622456547),
            ],
        },
    ),
    // A source region beyond the specular point, and a receiver region before it.
    (
        [(49999, 30000), (149999, 30000)],
        Case {
            zones: &[
                (
                    &[
                        (10000, -1000),
                        (30000, -1000),
                        (30000, 40000),
                        (10000, 40000),
                    ],
                    100,
                ),
                (
                    &[
                        (60000, -1000),
                        (90000, -1000),
                        (90000, 40000),
                        (60000, 40000),
                    ],
                    30,
                ),
            ],
            g0: 10,
            source: (0, 0, 3000),
            receiver: (100000, 0, 2500),
            shares: [
                (1622406820, 1622406830),
                (429496729, 429496730),
                (830196690, 830196696),
            ],
            bands: [
                (-12884901888, -12884901888),
                (-5169840691, -5169840631),
                (71706680, 71706779),
                (-8287370075, -8287370035),
                (-9190255656, -9190255626),
                (-9205996623, -9205996599),
            ],
        },
    ),
    // Ground below the direct path alone.
    (
        [(49999, 30000), (149999, 30000)],
        Case {
            zones: &[(
                &[(45000, -5000), (55000, -5000), (55000, 5000), (45000, 5000)],
                100,
            )],
            g0: 0,
            source: (0, 0, 500),
            receiver: (100000, 0, 800),
            shares: [(0, 0), (0, 0), (0, 0)],
            bands: [
                (-21460806012, -21460806009),
                (-21460806012, -21460806009),
                (-21460806012, -21460806009),
                (-21460806012, -21460806009),
                (-21460806012, -21460806009),
                (-21460806012, -21460806009),
            ],
        },
    ),
    // A slanting wall between zones, one of which holds the specular point and the receiver.
    (
        [(60000, -20000), (-10000, 45000)],
        Case {
            zones: &[
                (
                    &[
                        (-20000, 2000),
                        (-5000, 2000),
                        (-5000, 25000),
                        (-20000, 25000),
                    ],
                    55,
                ),
                (
                    &[(2000, -2000), (20000, -2000), (20000, 25000), (2000, 25000)],
                    90,
                ),
            ],
            g0: 15,
            source: (-30000, -1000, 1500),
            receiver: (5000, -7, 40),
            shares: [
                (1928445317, 1928445327),
                (3865470558, 3865470577),
                (3865470503, 3865470676),
            ],
            bands: [
                (-17769473157, -17769473154),
                (-2706789597, -2706789234),
                (31537095418, 31537096955),
                (44609266274, 44609268527),
                (11244736403, 11244737391),
                (-4682485296, -4682484997),
            ],
        },
    ),
];

/// The zone that was checked, if it was one.
fn checked_zone(checked: Result<Checked, PartFault>) -> Option<Zone> {
    match checked {
        Ok(Checked::Part(Part::Zone(zone))) => Some(zone),
        _ => None,
    }
}

/// The zone of these corners and this ground factor, if it is one.
fn zone(alloc: Global, corners: &[(i64, i64)], g: i64) -> Result<Option<Zone>, AllocError> {
    let name = name(alloc)?;
    let points = outline(alloc, corners)?;
    Ok(checked_zone(check(alloc, RawPart::Zone { name, points, g })))
}

fn zones(alloc: Global, grounds: &[Ground]) -> Result<Vec<Zone>, AllocError> {
    let mut zones = Vec::new(alloc);
    for (corners, g) in grounds {
        if let Some(zone) = zone(alloc, corners, *g)? {
            zones.push(zone)?;
        }
    }
    Ok(zones)
}

/// The shares of ground below a path among zones are those of a case.
fn has_shares(rt: &impl Abort, case: &Case, zones: &[Zone], path: &Path)
    requires { IsPath path.now }
{
    let [source, middle, receiver] = case.shares;
    has_ends(
        rt,
        region_share(zones, case.g0, path, Region::Source),
        source,
    );
    has_ends(
        rt,
        region_share(zones, case.g0, path, Region::Middle),
        middle,
    );
    has_ends(
        rt,
        region_share(zones, case.g0, path, Region::Receiver),
        receiver,
    );
}

/// The ends of all bands, of which the last three are alike.
fn all_bands(
    [at_63, at_125, at_250, at_500, at_1000, high]: [(i128, i128); 6],
) -> [(i128, i128); 8] {
    [at_63, at_125, at_250, at_500, at_1000, high, high, high]
}

/// The attenuations of a path among zones are those of a case.
fn has_bands(rt: &impl Abort, case: &Case, zones: &[Zone], path: &Path)
    requires { IsPath path.now }
{
    let expected = all_bands(case.bands);
    for (found, ends) in a_gr(zones, case.g0, path).iter().zip(&expected) {
        has_ends(rt, *found, *ends);
    }
}

/// The shares and the attenuations of a path among zones are those of a case, of which each zone is one.
fn has_ground(rt: &impl Abort, case: &Case, zones: &[Zone], path: &Path)
    requires { IsPath path.now }
{
    assert!(rt; zones.len() == case.zones.len());
    has_shares(rt, case, zones, path);
    has_bands(rt, case, zones, path);
}

/// The ends of a case's direct path among its zones are those of the case.
fn expect_direct(rt: &impl Abort, alloc: Global, case: &Case) -> Result<(), AllocError> {
    let zones = zones(alloc, case.zones)?;
    has_ground(rt, case, &zones, &direct(case.source, case.receiver));
    Ok(())
}

fn all_direct(rt: &impl Abort, alloc: Global, cases: &[Case]) -> Result<(), AllocError> {
    for case in cases {
        expect_direct(rt, alloc, case)?;
    }
    Ok(())
}

#[test]
fn ground_has_these_ends(rt: HostRuntime) -> Result<(), Fail> {
    Ok(all_direct(&rt, rt.alloc(), CASES)?)
}

/// The ends of a case's path by way of a wall among its zones are those of the case.
fn expect_reflected(
    rt: &impl Abort,
    alloc: Global,
    wall: Wall,
    case: &Case,
) -> Result<(), AllocError> {
    let zones = zones(alloc, case.zones)?;
    let path = reflected(rt, case.source, case.receiver, wall);
    has_ground(rt, case, &zones, &path);
    Ok(())
}

fn all_reflected(rt: &impl Abort, alloc: Global, cases: &[(Wall, Case)]) -> Result<(), AllocError> {
    for (wall, case) in cases {
        expect_reflected(rt, alloc, *wall, case)?;
    }
    Ok(())
}

#[test]
fn ground_by_way_of_walls_has_these_ends(rt: HostRuntime) -> Result<(), Fail> {
    Ok(all_reflected(&rt, rt.alloc(), REFLECTED)?)
}
