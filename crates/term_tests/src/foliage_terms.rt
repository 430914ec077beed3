//! Values from outside, by an independent exact program: the ends of the attenuations by foliage.

ghost use Rattle.path_shape.specs.Shape.{IsPath};

use crate::shared::{End, Wall, between, direct, has_ends, name, outline, reflected};
use fix_interval::Iv;
use path_shape::Path;
use scene_geom::Band;
use scene_parts::{Checked, Foliage, Part, PartFault, RawPart, check};
use std::alloc::{AllocError, Global};
use std::process::Abort;
use std::test::Fail;
use term_foliage::{a_fol, a_fol_over, distance_through};

/// The corners of a foliage and its height in mm.
type Wood = (&'static [(i64, i64)], i64);

struct Case {
    foliage: &'static [Wood],
    source: End,
    receiver: End,
    /// The wall by way of which the path leads.
    wall: Option<Wall>,
    /// The length of the path, in units of 2^-32 m.
    length: (i128, i128),
    /// The attenuations from 63 Hz to 8 kHz, in units of 2^-32 dB.
    bands: [(i128, i128); 8],
}

/// Below 10 m.
const NONE: [(i128, i128); 8] = [(0, 0); 8];

/// From 10 m to 20 m.
const SHORT: [(i128, i128); 8] = [
    (0, 0),
    (0, 0),
    (4294967296, 4294967296),
    (4294967296, 4294967296),
    (4294967296, 4294967296),
    (4294967296, 4294967296),
    (8589934592, 8589934592),
    (12884901888, 12884901888),
];

/// Where the sight line runs below the top of foliage.
const HEIGHTS: [Case; 11] = [
    // The sight line below the top of foliage, above it and just along it.
    Case {
        foliage: &[(
            &[(30000, -5000), (70000, -5000), (70000, 5000), (30000, 5000)],
            5000,
        )],
        source: (0, 0, 2000),
        receiver: (100000, 0, 2000),
        wall: None,
        length: (429496729600, 429496729600),
        bands: [
            (3435973799, 3435973844),
            (5153960718, 5153960765),
            (6871947638, 6871947687),
            (8589934558, 8589934609),
            (10307921477, 10307921530),
            (13743895316, 13743895373),
            (15461882236, 15461882295),
            (20615842995, 20615843060),
        ],
    },
    Case {
        foliage: &[(
            &[(30000, -5000), (70000, -5000), (70000, 5000), (30000, 5000)],
            1999,
        )],
        source: (0, 0, 2000),
        receiver: (100000, 0, 2000),
        wall: None,
        length: (429496729600, 429496729600),
        bands: NONE,
    },
    Case {
        foliage: &[(
            &[(30000, -5000), (70000, -5000), (70000, 5000), (30000, 5000)],
            2000,
        )],
        source: (0, 0, 2000),
        receiver: (100000, 0, 2000),
        wall: None,
        length: (429496729600, 429496729600),
        bands: NONE,
    },
    Case {
        foliage: &[(
            &[(30000, -5000), (70000, -5000), (70000, 5000), (30000, 5000)],
            2001,
        )],
        source: (0, 0, 2000),
        receiver: (100000, 0, 2000),
        wall: None,
        length: (429496729600, 429496729600),
        bands: [
            (3435973799, 3435973844),
            (5153960718, 5153960765),
            (6871947638, 6871947687),
            (8589934558, 8589934609),
            (10307921477, 10307921530),
            (13743895316, 13743895373),
            (15461882236, 15461882295),
            (20615842995, 20615843060),
        ],
    },
    // It crosses the height of the top upward, before, in and behind the foliage, and downward.
    Case {
        foliage: &[(
            &[(60000, -5000), (90000, -5000), (90000, 5000), (60000, 5000)],
            5000,
        )],
        source: (0, 0, 1000),
        receiver: (100000, 0, 9000),
        wall: None,
        length: (430868927120, 430868927121),
        bands: NONE,
    },
    Case {
        foliage: &[(
            &[(20000, -5000), (80000, -5000), (80000, 5000), (20000, 5000)],
            5000,
        )],
        source: (0, 0, 1000),
        receiver: (100000, 0, 9000),
        wall: None,
        length: (430868927120, 430868927121),
        bands: [
            (2585213533, 2585213566),
            (3877820315, 3877820349),
            (5170427096, 5170427132),
            (6463033878, 6463033914),
            (7755640660, 7755640697),
            (10340854223, 10340854263),
            (11633461005, 11633461045),
            (15511281350, 15511281394),
        ],
    },
    Case {
        foliage: &[(
            &[(10000, -5000), (40000, -5000), (40000, 5000), (10000, 5000)],
            5000,
        )],
        source: (0, 0, 1000),
        receiver: (100000, 0, 9000),
        wall: None,
        length: (430868927120, 430868927121),
        bands: [
            (2585213533, 2585213568),
            (3877820315, 3877820352),
            (5170427096, 5170427136),
            (6463033878, 6463033919),
            (7755640660, 7755640703),
            (10340854223, 10340854271),
            (11633461005, 11633461054),
            (15511281350, 15511281406),
        ],
    },
    Case {
        foliage: &[(
            &[(20000, -5000), (80000, -5000), (80000, 5000), (20000, 5000)],
            5000,
        )],
        source: (0, 0, 9000),
        receiver: (100000, 0, 1000),
        wall: None,
        length: (430868927120, 430868927121),
        bands: [
            (2585213533, 2585213566),
            (3877820315, 3877820349),
            (5170427096, 5170427132),
            (6463033878, 6463033914),
            (7755640660, 7755640697),
            (10340854223, 10340854263),
            (11633461005, 11633461045),
            (15511281350, 15511281394),
        ],
    },
    Case {
        foliage: &[(
            &[(10000, -5000), (40000, -5000), (40000, 5000), (10000, 5000)],
            7000,
        )],
        source: (0, 0, 9100),
        receiver: (100000, 3, 1000),
        wall: None,
        length: (430903390311, 430903390312),
        bands: SHORT,
    },
    // The top at the height of one end: the sight line begins or ends there.
    Case {
        foliage: &[(
            &[(20000, -5000), (80000, -5000), (80000, 5000), (20000, 5000)],
            5000,
        )],
        source: (0, 0, 5000),
        receiver: (100000, 0, 1000),
        wall: None,
        length: (429840189654, 429840189655),
        bands: [
            (5158082217, 5158082282),
            (7737123356, 7737123423),
            (10316164494, 10316164563),
            (12895205633, 12895205704),
            (15474246772, 15474246845),
            (20632329049, 20632329126),
            (23211370188, 23211370267),
            (30948493604, 30948493689),
        ],
    },
    Case {
        foliage: &[(
            &[(20000, -5000), (80000, -5000), (80000, 5000), (20000, 5000)],
            5000,
        )],
        source: (0, 0, 1000),
        receiver: (100000, 0, 5000),
        wall: None,
        length: (429840189654, 429840189655),
        bands: [
            (5158082217, 5158082282),
            (7737123356, 7737123423),
            (10316164494, 10316164563),
            (12895205633, 12895205704),
            (15474246772, 15474246845),
            (20632329049, 20632329126),
            (23211370188, 23211370267),
            (30948493604, 30948493689),
        ],
    },
];

/// The steps of the table.
const STEPS: [Case; 11] = [
    // Exactly 10 m through foliage, and a millimetre less and more; then where the intervals don't decide it.
    Case {
        foliage: &[(
            &[(0, -5000), (10000, -5000), (10000, 5000), (0, 5000)],
            9000,
        )],
        source: (0, 0, 2000),
        receiver: (160000, 0, 2000),
        wall: None,
        length: (687194767360, 687194767360),
        bands: SHORT,
    },
    Case {
        foliage: &[(&[(0, -5000), (9999, -5000), (9999, 5000), (0, 5000)], 9000)],
        source: (0, 0, 2000),
        receiver: (160000, 0, 2000),
        wall: None,
        length: (687194767360, 687194767360),
        bands: NONE,
    },
    Case {
        foliage: &[(
            &[(0, -5000), (10001, -5000), (10001, 5000), (0, 5000)],
            9000,
        )],
        source: (0, 0, 2000),
        receiver: (160000, 0, 2000),
        wall: None,
        length: (687194767360, 687194767360),
        bands: SHORT,
    },
    Case {
        foliage: &[(
            &[(0, -5000), (10000, -5000), (10000, 5000), (0, 5000)],
            9000,
        )],
        source: (0, 0, 2000),
        receiver: (100000, 0, 2000),
        wall: None,
        length: (429496729600, 429496729600),
        bands: [
            (0, 0),
            (0, 0),
            (0, 4294967296),
            (0, 4294967296),
            (0, 4294967296),
            (0, 4294967296),
            (0, 8589934592),
            (0, 12884901888),
        ],
    },
    // The same at 20 m and at 200 m.
    Case {
        foliage: &[(
            &[(40000, -5000), (60000, -5000), (60000, 5000), (40000, 5000)],
            9000,
        )],
        source: (0, 0, 2000),
        receiver: (160000, 0, 2000),
        wall: None,
        length: (687194767360, 687194767360),
        bands: SHORT,
    },
    Case {
        foliage: &[(
            &[(40000, -5000), (59999, -5000), (59999, 5000), (40000, 5000)],
            9000,
        )],
        source: (0, 0, 2000),
        receiver: (160000, 0, 2000),
        wall: None,
        length: (687194767360, 687194767360),
        bands: SHORT,
    },
    Case {
        foliage: &[(
            &[(40000, -5000), (60001, -5000), (60001, 5000), (40000, 5000)],
            9000,
        )],
        source: (0, 0, 2000),
        receiver: (160000, 0, 2000),
        wall: None,
        length: (687194767360, 687194767360),
        bands: [
            (1718072797, 1718072821),
            (2577109206, 2577109232),
            (3436145615, 3436145642),
            (4295182023, 4295182053),
            (5154218432, 5154218463),
            (6872291250, 6872291284),
            (7731327659, 7731327694),
            (10308436885, 10308436925),
        ],
    },
    Case {
        foliage: &[(
            &[(40000, -5000), (60000, -5000), (60000, 5000), (40000, 5000)],
            9000,
        )],
        source: (0, 0, 2000),
        receiver: (100000, 0, 2000),
        wall: None,
        length: (429496729600, 429496729600),
        bands: [
            (0, 1717986922),
            (0, 2576980383),
            (3435973815, 4294967296),
            (4294967274, 4294967305),
            (4294967296, 5153960765),
            (4294967296, 6871947687),
            (7730941109, 8589934592),
            (10307921485, 12884901888),
        ],
    },
    Case {
        foliage: &[(
            &[(0, -5000), (200000, -5000), (200000, 5000), (0, 5000)],
            9000,
        )],
        source: (0, 0, 2000),
        receiver: (400000, 0, 2000),
        wall: None,
        length: (1717986918400, 1717986918400),
        bands: [
            (17179869000, 17179869200),
            (25769803600, 25769803800),
            (34359738200, 34359738400),
            (42949672800, 42949673000),
            (51539607400, 51539607600),
            (68719476600, 68719476800),
            (77309411200, 77309411400),
            (103079215000, 103079215200),
        ],
    },
    Case {
        foliage: &[(
            &[(0, -5000), (199999, -5000), (199999, 5000), (0, 5000)],
            9000,
        )],
        source: (0, 0, 2000),
        receiver: (400000, 0, 2000),
        wall: None,
        length: (1717986918400, 1717986918400),
        bands: [
            (17179783096, 17179783304),
            (25769674744, 25769674956),
            (34359566392, 34359566608),
            (42949458040, 42949458260),
            (51539349688, 51539349912),
            (68719132984, 68719133216),
            (77309024632, 77309024868),
            (103078699576, 103078699824),
        ],
    },
    Case {
        foliage: &[(
            &[(0, -5000), (200001, -5000), (200001, 5000), (0, 5000)],
            9000,
        )],
        source: (0, 0, 2000),
        receiver: (400000, 0, 2000),
        wall: None,
        length: (1717986918400, 1717986918400),
        bands: [
            (17179869000, 17179869200),
            (25769803600, 25769803800),
            (34359738200, 34359738400),
            (42949672800, 42949673000),
            (51539607400, 51539607600),
            (68719476600, 68719476800),
            (77309411200, 77309411400),
            (103079215000, 103079215200),
        ],
    },
];

/// Foliage of several shapes.
const SHAPES: [Case; 8] = [
    // Foliage over foliage: its parts add up, to no more than the whole path.
    Case {
        foliage: &[
            (
                &[(20000, -5000), (60000, -5000), (60000, 5000), (20000, 5000)],
                9000,
            ),
            (
                &[(40000, -5000), (70000, -5000), (70000, 5000), (40000, 5000)],
                3000,
            ),
        ],
        source: (0, 0, 2000),
        receiver: (100000, 0, 2000),
        wall: None,
        length: (429496729600, 429496729600),
        bands: [
            (6012954145, 6012954224),
            (9019431253, 9019431336),
            (12025908361, 12025908448),
            (15032385469, 15032385560),
            (18038862576, 18038862671),
            (24051816792, 24051816895),
            (27058293900, 27058294007),
            (36077725223, 36077725342),
        ],
    },
    Case {
        foliage: &[
            (
                &[
                    (-10000, -5000),
                    (90000, -5000),
                    (90000, 5000),
                    (-10000, 5000),
                ],
                9000,
            ),
            (
                &[
                    (10000, -5000),
                    (120000, -5000),
                    (120000, 5000),
                    (10000, 5000),
                ],
                9000,
            ),
        ],
        source: (0, 0, 2000),
        receiver: (100000, 0, 2000),
        wall: None,
        length: (429496729600, 429496729600),
        bands: [
            (8589934500, 8589934600),
            (12884901800, 12884901900),
            (17179869100, 17179869200),
            (21474836400, 21474836500),
            (25769803700, 25769803800),
            (34359738300, 34359738400),
            (38654705600, 38654705700),
            (51539607500, 51539607600),
        ],
    },
    // An outline that goes round to the right, one that crosses itself, and a path wholly inside.
    Case {
        foliage: &[(
            &[(30000, 5000), (70000, 5000), (70000, -5000), (30000, -5000)],
            9000,
        )],
        source: (0, 0, 2000),
        receiver: (100000, 0, 2000),
        wall: None,
        length: (429496729600, 429496729600),
        bands: [
            (3435973799, 3435973844),
            (5153960718, 5153960765),
            (6871947638, 6871947687),
            (8589934558, 8589934609),
            (10307921477, 10307921530),
            (13743895316, 13743895373),
            (15461882236, 15461882295),
            (20615842995, 20615843060),
        ],
    },
    Case {
        foliage: &[(
            &[(10000, -9000), (80000, 5000), (80000, -5000), (10000, 9000)],
            9000,
        )],
        source: (0, 7, 2000),
        receiver: (100000, -3000, 2000),
        wall: None,
        length: (429690862249, 429690862250),
        bands: [
            (1936470995, 1936471026),
            (2904706504, 2904706539),
            (3872942013, 3872942052),
            (4841177522, 4841177565),
            (5809413030, 5809413078),
            (7745884048, 7745884104),
            (8714119557, 8714119617),
            (11618826084, 11618826156),
        ],
    },
    Case {
        foliage: &[(
            &[
                (-10000, -5000),
                (200000, -5000),
                (200000, 5000),
                (-10000, 5000),
            ],
            9000,
        )],
        source: (0, 0, 2000),
        receiver: (100000, 777, 2500),
        wall: None,
        length: (429515062899, 429515062900),
        bands: [
            (8590301165, 8590301267),
            (12885451798, 12885451900),
            (17180602431, 17180602533),
            (21475753064, 21475753166),
            (25770903697, 25770903799),
            (34361204963, 34361205065),
            (38656355596, 38656355698),
            (51541807495, 51541807597),
        ],
    },
    // Beside the path, and beyond its ends.
    Case {
        foliage: &[
            (
                &[(30000, 10), (70000, 10), (70000, 5000), (30000, 5000)],
                9000,
            ),
            (
                &[(-9000, -5000), (-10, -5000), (-10, 5000), (-9000, 5000)],
                9000,
            ),
            (
                &[
                    (100001, -5000),
                    (120000, -5000),
                    (120000, 5000),
                    (100001, 5000),
                ],
                9000,
            ),
        ],
        source: (0, 0, 2000),
        receiver: (100000, 0, 2000),
        wall: None,
        length: (429496729600, 429496729600),
        bands: NONE,
    },
    // Source and receiver at one place in plan, and the largest distance.
    Case {
        foliage: &[(
            &[(-5000, -5000), (5000, -5000), (5000, 5000), (-5000, 5000)],
            9000,
        )],
        source: (1000, 1000, 2000),
        receiver: (1000, 1000, 6000),
        wall: None,
        length: (17179869184, 17179869184),
        bands: NONE,
    },
    Case {
        foliage: &[(
            &[
                (-2000000, -2100000),
                (700000, 500000),
                (600000, 900000),
                (-2500000, -1800000),
            ],
            100000,
        )],
        source: (-4000000, -4000000, 1),
        receiver: (4000000, 4000000, 100000),
        wall: None,
        length: (48593906049897, 48593906049898),
        bands: [
            (17179869000, 17179869200),
            (25769803600, 25769803800),
            (34359738200, 34359738400),
            (42949672800, 42949673000),
            (51539607400, 51539607600),
            (68719476600, 68719476800),
            (77309411200, 77309411400),
            (103079215000, 103079215200),
        ],
    },
];

/// By way of a wall.
const REFLECTED: [Case; 4] = [
    // Foliage that only the second leg meets, and only the first.
    Case {
        foliage: &[(
            &[(75000, 5000), (95000, 5000), (95000, 20000), (75000, 20000)],
            9000,
        )],
        source: (0, 0, 500),
        receiver: (100000, 0, 800),
        wall: Some([(49999, 30000), (149999, 30000)]),
        length: (500876611162, 500876611163),
        bands: SHORT,
    },
    Case {
        foliage: &[(
            &[(5000, 2000), (25000, 2000), (25000, 20000), (5000, 20000)],
            9000,
        )],
        source: (0, 0, 500),
        receiver: (100000, 0, 800),
        wall: Some([(-50000, 30000), (149999, 30000)]),
        length: (500876611162, 500876611163),
        bands: [
            (2003506422, 2003506449),
            (3005259645, 3005259673),
            (4007012868, 4007012897),
            (5008766091, 5008766121),
            (6010519314, 6010519346),
            (8014025760, 8014025794),
            (9015778983, 9015779018),
            (12021038652, 12021038691),
        ],
    },
    // On both legs, below a sight line that rises.
    Case {
        foliage: &[(
            &[(5000, 2000), (95000, 2000), (95000, 20000), (5000, 20000)],
            4000,
        )],
        source: (0, 0, 500),
        receiver: (100000, 0, 8000),
        wall: Some([(-50000, 30000), (149999, 30000)]),
        length: (501909701795, 501909701796),
        bands: [
            (2844154945, 2844154983),
            (4266232434, 4266232475),
            (5688309923, 5688309966),
            (7110387412, 7110387458),
            (8532464901, 8532464949),
            (11376619879, 11376619932),
            (12798697368, 12798697424),
            (17064929836, 17064929898),
        ],
    },
    // On neither leg, but on the straight line.
    Case {
        foliage: &[(
            &[(40000, -2000), (60000, -2000), (60000, 2000), (40000, 2000)],
            9000,
        )],
        source: (0, 0, 500),
        receiver: (100000, 0, 800),
        wall: Some([(-50000, 30000), (149999, 30000)]),
        length: (500876611162, 500876611163),
        bands: NONE,
    },
];

/// The foliage that was checked, if it was one.
fn checked_wood(checked: Result<Checked, PartFault>) -> Option<Foliage> {
    match checked {
        Ok(Checked::Part(Part::Foliage(wood))) => Some(wood),
        _ => None,
    }
}

/// The foliage of these corners and this height, if it is one.
fn wood(alloc: Global, corners: &[(i64, i64)], h: i64) -> Result<Option<Foliage>, AllocError> {
    let name = name(alloc)?;
    let points = outline(alloc, corners)?;
    let raw = RawPart::Foliage { name, points, h };
    Ok(checked_wood(check(alloc, raw)))
}

fn woods(alloc: Global, foliage: &[Wood]) -> Result<Vec<Foliage>, AllocError> {
    let mut woods = Vec::new(alloc);
    for (corners, h) in foliage {
        if let Some(wood) = wood(alloc, corners, *h)? {
            woods.push(wood)?;
        }
    }
    Ok(woods)
}

/// The attenuations over a distance through foliage are those of a case.
fn has_bands_over(rt: &impl Abort, case: &Case, through: Iv) {
    for (band, ends) in Band::all().iter().zip(&case.bands) {
        has_ends(rt, a_fol_over(through, *band), *ends);
    }
}

/// The attenuations of a path are those of a case, and none where the path is said to run through no foliage.
fn has_bands(rt: &impl Abort, case: &Case, woods: &[Foliage], path: &Path)
    requires { IsPath path.now }
{
    let length = between(case.length);
    for (found, ends) in a_fol(woods, path, length).iter().zip(&case.bands) {
        has_ends(rt, *found, *ends);
    }
    match distance_through(woods, path, length) {
        None => assert!(rt; case.bands == NONE),
        Some(through) => has_bands_over(rt, case, through),
    }
}

/// The path of a case.
fn path(rt: &impl Abort, case: &Case) -> Path
    ensures { IsPath result }
{
    match case.wall {
        None => direct(case.source, case.receiver),
        Some(wall) => reflected(rt, case.source, case.receiver, wall),
    }
}

/// The attenuations of a case.
fn has_foliage(rt: &impl Abort, alloc: Global, case: &Case) -> Result<(), AllocError> {
    let woods = woods(alloc, case.foliage)?;
    assert!(rt; woods.len() == case.foliage.len());
    has_bands(rt, case, &woods, &path(rt, case));
    Ok(())
}

fn have_foliage(rt: &impl Abort, alloc: Global, cases: &[Case]) -> Result<(), AllocError> {
    for case in cases {
        has_foliage(rt, alloc, case)?;
    }
    Ok(())
}

#[test]
fn foliage_below_its_top_has_these_ends(rt: HostRuntime) -> Result<(), Fail> {
    Ok(have_foliage(&rt, rt.alloc(), &HEIGHTS)?)
}

#[test]
fn steps_of_foliage_have_these_ends(rt: HostRuntime) -> Result<(), Fail> {
    Ok(have_foliage(&rt, rt.alloc(), &STEPS)?)
}

#[test]
fn foliage_of_several_shapes_has_these_ends(rt: HostRuntime) -> Result<(), Fail> {
    Ok(have_foliage(&rt, rt.alloc(), &SHAPES)?)
}

#[test]
fn foliage_by_way_of_walls_has_these_ends(rt: HostRuntime) -> Result<(), Fail> {
    Ok(have_foliage(&rt, rt.alloc(), &REFLECTED)?)
}
