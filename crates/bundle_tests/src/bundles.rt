//! Bundles and levels with ends from outside, by an independent program.
use crate::paths::{path, path_near};
use crate::scenes::{outline, put, take};
use fix_interval::Iv;
use path_calc::{Band, Bundle, Levels, levels};
use scene_book::{Edit, Scene};
use scene_geom::Pt;
use scene_parts::{Air, Kind, Name, PlainName, PointSource, RawPart, Receiver, SetSpec};
use std::alloc::Global;
use std::process::Abort;
use std::test::Fail;

/// An edit that makes a scene: the air and the ground factor outside of zones, or a part by its name.
#[derive(Clone, Copy)]
enum Step {
    Air(Air),
    Yard,
    Wall,
    Front,
    Low,
}

/// A zone of ground.
const OPEN: [Step; 2] = [Step::Air(Air::Celsius10Humidity70), Step::Yard];

/// The same, with a barrier on the way.
const BEHIND_WALL: [Step; 3] = [Step::Air(Air::Celsius10Humidity70), Step::Yard, Step::Wall];

/// The same, with a wall that reflects, and a barrier before it.
const BESIDE_FRONT: [Step; 4] = [
    Step::Air(Air::Celsius10Humidity70),
    Step::Yard,
    Step::Front,
    Step::Low,
];

fn fan(alloc: Global) -> Option<PointSource> {
    Some(PointSource {
        name: Name::from_vec(b"fan".to_vec(alloc).ok()?),
        kind: Kind::Industry,
        at: Pt::new(0, 0),
        h: 2000,
        lw: [
            Some(9500),
            Some(9800),
            Some(10_100),
            Some(10_200),
            Some(10_000),
            Some(9600),
            Some(9000),
            None,
        ],
        dc: -150,
    })
}

fn gate(alloc: Global) -> Option<PointSource> {
    Some(PointSource {
        name: Name::from_vec(b"gate".to_vec(alloc).ok()?),
        kind: Kind::Road,
        at: Pt::new(-40_000, 25_000),
        h: 500,
        lw: [
            Some(8800),
            Some(9000),
            Some(9100),
            Some(9300),
            Some(9500),
            Some(9200),
            Some(8500),
            Some(7600),
        ],
        dc: 300,
    })
}

fn receiver(alloc: Global) -> Option<Receiver> {
    Some(Receiver {
        name: Name::from_vec(b"r".to_vec(alloc).ok()?),
        at: Pt::new(100_000, 30_001),
        h: 4000,
    })
}

fn yard(alloc: Global) -> Option<Edit> {
    let points = outline(
        alloc,
        &[
            (-30_000, -20_000),
            (50_000, -20_000),
            (50_000, 40_000),
            (-30_000, 40_000),
        ],
    )?;
    let name = PlainName::from_vec(b"yard".to_vec(alloc).ok()?);
    put(
        alloc,
        RawPart::Zone {
            name,
            points,
            g: 80,
        },
    )
}

/// A barrier of a height in mm, which reflects so much per mille.
fn barrier(
    alloc: Global,
    name: PlainName,
    places: &[(i64, i64)],
    h: i64,
    rho: i64,
) -> Option<Edit> {
    let points = outline(alloc, places)?;
    put(
        alloc,
        RawPart::Barrier {
            name,
            points,
            h,
            density: 20,
            rho,
        },
    )
}

/// A barrier across the way from the fan to the receiver, by two sides, which is too small at 63 Hz.
fn wall(alloc: Global) -> Option<Edit> {
    let places = [(40_000, 10_500), (41_000, 14_500), (42_000, 10_500)];
    let name = PlainName::from_vec(b"wall".to_vec(alloc).ok()?);
    barrier(alloc, name, &places, 5000, 0)
}

/// A wall beside the fan that reflects and is large enough from 1000 Hz on.
fn front(alloc: Global) -> Option<Edit> {
    let places = [(20_000, 60_000), (90_000, 62_000)];
    let name = PlainName::from_vec(b"front".to_vec(alloc).ok()?);
    barrier(alloc, name, &places, 7000, 700)
}

/// A barrier before that wall.
fn low(alloc: Global) -> Option<Edit> {
    let places = [(30_000, 40_000), (40_000, 42_000)];
    let name = PlainName::from_vec(b"low".to_vec(alloc).ok()?);
    barrier(alloc, name, &places, 5000, 0)
}

/// An air, and the ground factor outside of all zones.
fn setting(air: Air) -> Edit {
    Edit::Set(SetSpec {
        reach: None,
        g: Some(20),
        air: Some(air),
        c0: None,
        ground: None,
    })
}

/// The edit of a step.
fn edit(alloc: Global, step: &Step) -> Option<Edit> {
    match step {
        Step::Air(air) => Some(setting(*air)),
        Step::Yard => yard(alloc),
        Step::Wall => wall(alloc),
        Step::Front => front(alloc),
        Step::Low => low(alloc),
    }
}

/// The scene that these steps make.
fn scene(alloc: Global, steps: &[Step]) -> Option<Scene> {
    let mut scene = Scene::empty(alloc).ok()?;
    for step in steps {
        take(alloc, &mut scene, edit(alloc, step))?;
    }
    Some(scene)
}

/// The bundle of a source in a scene.
fn heard(alloc: Global, scene: &Scene, source: &PointSource) -> Option<Bundle> {
    let receiver = receiver(alloc)?;
    path(alloc, scene, source, &receiver)
}

/// The bundle of the fan in a scene.
fn fan_heard(alloc: Global, scene: &Scene) -> Option<Bundle> {
    let fan = fan(alloc)?;
    heard(alloc, scene, &fan)
}

/// The bundle of the gate in a scene.
fn gate_heard(alloc: Global, scene: &Scene) -> Option<Bundle> {
    let gate = gate(alloc)?;
    heard(alloc, scene, &gate)
}

/// The bundle of the fan in the scene that these steps make.
fn fan_in(alloc: Global, steps: &[Step]) -> Option<Bundle> {
    let scene = scene(alloc, steps)?;
    fan_heard(alloc, &scene)
}

/// The bundle of the fan in a scene, by an index of its obstacles.
fn fan_heard_near(alloc: Global, scene: &Scene) -> Option<Bundle> {
    let fan = fan(alloc)?;
    let receiver = receiver(alloc)?;
    path_near(alloc, scene, &fan, &receiver)
}

/// The bundle of the fan in the scene that these steps make, by an index of its obstacles.
fn fan_near(alloc: Global, steps: &[Step]) -> Option<Bundle> {
    let scene = scene(alloc, steps)?;
    fan_heard_near(alloc, &scene)
}

/// The bundle of the gate in the scene that these steps make.
fn gate_in(alloc: Global, steps: &[Step]) -> Option<Bundle> {
    let scene = scene(alloc, steps)?;
    gate_heard(alloc, &scene)
}

/// The levels of the fan's bundle and the gate's.
fn with_gate(alloc: Global, fan: Bundle) -> Option<Levels> {
    let gate = gate_in(alloc, &OPEN)?;
    Some(levels(&[fan, gate]))
}

/// The levels of the fan and the gate.
fn both(alloc: Global) -> Option<Levels> {
    let fan = fan_in(alloc, &OPEN)?;
    with_gate(alloc, fan)
}

fn has_ends(rt: &impl Abort, found: Iv, (lo, hi): (i128, i128)) {
    assert_eq!(rt; (found.low(), found.high()), (Some(lo), Some(hi)));
}

/// Asserts the ends of a bundle's energies in each band, and over all bands.
fn has_energies(
    rt: &impl Abort,
    found: Option<Bundle>,
    bands: &[(i128, i128); 8],
    long: (i128, i128),
) -> Option<()> {
    let found = found?;
    for band in Band::all() {
        has_ends(rt, found.energy[band.place()], bands[band.place()]);
    }
    has_ends(rt, found.long, long);
    Some(())
}

/// Asserts the ends of a bundle's energies at 4 kHz, and over all bands.
fn has_long_energy(
    rt: &impl Abort,
    found: Option<Bundle>,
    at_4000: (i128, i128),
    long: (i128, i128),
) -> Option<()> {
    let found = found?;
    has_ends(rt, found.energy[Band::Hz4000.place()], at_4000);
    has_ends(rt, found.long, long);
    Some(())
}

/// Each air with the ends of the energies at 4 kHz and over all bands.
const ENERGIES: [(Air, (i128, i128), (i128, i128)); 6] = [
    (
        Air::Celsius10Humidity70,
        (13169318177004, 13169318205246),
        (568584962821241, 568584964630357),
    ),
    (
        Air::Celsius20Humidity70,
        (16708658112775, 16708658148607),
        (563804865935390, 563804867711447),
    ),
    (
        Air::Celsius30Humidity70,
        (16628501822016, 16628501866590),
        (538126104355941, 538126106011783),
    ),
    (
        Air::Celsius15Humidity20,
        (3426078034182, 3426078041530),
        (483434090302574, 483434091928080),
    ),
    (
        Air::Celsius15Humidity50,
        (12135554867676, 12135554893701),
        (559856185372228, 559856187018908),
    ),
    (
        Air::Celsius15Humidity80,
        (16390332804266, 16390332848203),
        (572428789806763, 572428791538317),
    ),
];

#[test]
fn energies_in_each_air(rt: HostRuntime) -> Result<(), Fail> {
    for (air, energy, long) in ENERGIES {
        let found = fan_in(rt.alloc(), &[Step::Air(air), Step::Yard]);
        has_long_energy(&rt, found, energy, long).ok_or("no memory")?;
    }
    Ok(())
}

/// The ends of the energies in each band behind the barrier.
const BEHIND: [(i128, i128); 8] = [
    (139420746404597, 139420746628834),
    (104882167792187, 104882173344713),
    (127845976612309, 127845993072370),
    (186376353380031, 186376380510030),
    (94383564454438, 94383581823025),
    (19251541040467, 19251545341816),
    (1460136473542, 1460136786752),
    (0, 0),
];

#[test]
fn energies_behind_a_barrier(rt: HostRuntime) -> Result<(), Fail> {
    let long = (231362228724638, 231362267539394);
    has_energies(&rt, fan_in(rt.alloc(), &BEHIND_WALL), &BEHIND, long).ok_or("no memory")?;
    Ok(())
}

/// The ends of the energies in each band beside a wall.
const BESIDE: [(i128, i128); 8] = [
    (139420746404597, 139420746628834),
    (116476476314997, 116476476752109),
    (121017592787432, 121017593436223),
    (317100560724710, 317100561914722),
    (364917308165819, 364917309452253),
    (126800999664199, 126801000042095),
    (17480918854935, 17480918899358),
    (0, 0),
];

#[test]
fn energies_by_way_of_a_wall(rt: HostRuntime) -> Result<(), Fail> {
    let long = (725753307672187, 725753310127432);
    has_energies(&rt, fan_in(rt.alloc(), &BESIDE_FRONT), &BESIDE, long).ok_or("no memory")?;
    Ok(())
}

#[test]
fn energies_by_an_index_of_the_obstacles(rt: HostRuntime) -> Result<(), Fail> {
    let behind = (231362228724638, 231362267539394);
    has_energies(&rt, fan_near(rt.alloc(), &BEHIND_WALL), &BEHIND, behind).ok_or("no memory")?;
    let beside = (725753307672187, 725753310127432);
    has_energies(&rt, fan_near(rt.alloc(), &BESIDE_FRONT), &BESIDE, beside).ok_or("no memory")?;
    Ok(())
}

/// The ends of the levels of both sources together in each band.
const LEVELS: [(i128, i128); 8] = [
    (198939319250, 198939319290),
    (195178559680, 195178559770),
    (194386912710, 194386912850),
    (210877853260, 210877853370),
    (211424785160, 211424785260),
    (195051263200, 195051263270),
    (156253369170, 156253369240),
    (44113816690, 44113816800),
];

#[test]
fn levels_of_no_source(rt: HostRuntime) {
    let silent = levels(&[]);
    has_ends(&rt, silent.total, (0, 0));
    has_ends(&rt, silent.bands[4], (0, 0));
}

#[test]
fn levels_of_two_sources(rt: HostRuntime) -> Result<(), Fail> {
    let found = both(rt.alloc()).ok_or("no memory")?;
    has_ends(&rt, found.total, (225660748370, 225660748460));
    for band in Band::all() {
        has_ends(&rt, found.bands[band.place()], LEVELS[band.place()]);
    }
    Ok(())
}
