//! Values from outside, by an independent exact program: the ends of the ground by the alternative method.

use crate::shared::{End, between, direct, has_ends};
use std::process::Abort;
use term_ground::{a_gr_simple, d_omega};

struct Case {
    source: End,
    receiver: End,
    /// The length of the path, in units of 2^-32 m, and the square of its plan length, in units of 2^-32 m².
    length: (i128, i128),
    square: (i128, i128),
    /// A_gr and D_Omega, in units of 2^-32 dB.
    attenuation: (i128, i128),
    index: (i128, i128),
}

const CASES: [Case; 16] = [
    // At 1 m, nearer and a little farther.
    Case {
        source: (0, 0, 1500),
        receiver: (1000, 0, 1500),
        length: (4294967296, 4294967296),
        square: (4294967296, 4294967296),
        attenuation: (0, 0),
        index: (1777802280, 1777802300),
    },
    Case {
        source: (0, 0, 1500),
        receiver: (999, 0, 1500),
        length: (4290672328, 4290672330),
        square: (4286381656, 4286381657),
        attenuation: (0, 0),
        index: (1774750670, 1774750690),
    },
    Case {
        source: (0, 0, 1500),
        receiver: (1001, 0, 1500),
        length: (4299262263, 4299262264),
        square: (4303561525, 4303561526),
        attenuation: (0, 0),
        index: (1780855230, 1780855240),
    },
    Case {
        source: (0, 0, 1),
        receiver: (1, 0, 1),
        length: (4294483, 4294984),
        square: (4294, 4295),
        attenuation: (17892833308, 17892833943),
        index: (3400084780, 3401098180),
    },
    // Unequal heights, near and far.
    Case {
        source: (0, 0, 500),
        receiver: (0, 3000, 4000),
        length: (19798820964, 19798820965),
        square: (38654705664, 38654705664),
        attenuation: (0, 0),
        index: (10186180990, 10186181000),
    },
    Case {
        source: (0, 0, 500),
        receiver: (10000, 20000, 4000),
        length: (97207739670, 97207739671),
        square: (2147483648000, 2147483648000),
        attenuation: (0, 0),
        index: (12785171520, 12785171530),
    },
    Case {
        source: (0, 0, 4000),
        receiver: (300000, -400000, 500),
        length: (2147536260704, 2147536260705),
        square: (1073741824000000, 1073741824000000),
        attenuation: (19935537429, 19935537449),
        index: (12928841440, 12928841450),
    },
    // Where the attenuation stops being 0, and where it nears 4.8 dB.
    Case {
        source: (0, 0, 2000),
        receiver: (50000, 0, 2000),
        length: (214748364800, 214748364800),
        square: (10737418240000, 10737418240000),
        attenuation: (12713103188, 12713103212),
        index: (12869735970, 12869735980),
    },
    Case {
        source: (0, 0, 2000),
        receiver: (100000, 0, 2000),
        length: (429496729600, 429496729600),
        square: (42949672960000, 42949672960000),
        attenuation: (17179869180, 17179869201),
        index: (12914235500, 12914235510),
    },
    Case {
        source: (0, 0, 2000),
        receiver: (160000, 0, 2000),
        length: (687194767360, 687194767360),
        square: (109951162777600, 109951162777600),
        attenuation: (18589155315, 18589155336),
        index: (12923313590, 12923313600),
    },
    Case {
        source: (0, 0, 10),
        receiver: (3000000, 0, 10),
        length: (12884901888000, 12884901888000),
        square: (38654705664000000, 38654705664000000),
        attenuation: (20615353378, 20615353397),
        index: (12929139860, 12929139870),
    },
    // Source and receiver at one place in plan, and the largest distance and heights.
    Case {
        source: (1000, 1000, 2000),
        receiver: (1000, 1000, 6000),
        length: (17179869184, 17179869184),
        square: (0, 0),
        attenuation: (0, 0),
        index: (4162253360, 4162253370),
    },
    Case {
        source: (1000, 1000, 2000),
        receiver: (1000, 1000, 2000),
        length: (0, 0),
        square: (0, 0),
        attenuation: (0, 0),
        index: (0, 0),
    },
    Case {
        source: (-4000000, -4000000, 1),
        receiver: (4000000, 4000000, 100000),
        length: (48593906049897, 48593906049898),
        square: (549755813888000000, 549755813888000000),
        attenuation: (19969492587, 19969492606),
        index: (12929139830, 12929139840),
    },
    Case {
        source: (-4000000, -4000000, 100000),
        receiver: (4000000, 4000000, 100000),
        length: (48592007999616, 48592007999617),
        square: (549755813888000000, 549755813888000000),
        attenuation: (19323104533, 19323104552),
        index: (12926226040, 12926226050),
    },
    Case {
        source: (0, 0, 100000),
        receiver: (1, 1, 100000),
        length: (6073670, 6074025),
        square: (8589, 8590),
        attenuation: (0, 0),
        index: (0, 10),
    },
];

fn has_simple(rt: &impl Abort, case: &Case) {
    let path = direct(case.source, case.receiver);
    let found = a_gr_simple(&path, between(case.length));
    has_ends(rt, found, case.attenuation);
    has_ends(rt, d_omega(&path, between(case.square)), case.index);
}

fn have_simple(rt: &impl Abort, cases: &[Case]) {
    for case in cases {
        has_simple(rt, case);
    }
}

#[test]
fn simple_ground_has_these_ends(rt: HostRuntime) {
    have_simple(&rt, &CASES);
}
