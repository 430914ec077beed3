//! A scene with what is prepared of it, as a board holds it and its jobs share it.
ghost use Rattle.std.specs.Prelude.{◌≡◌, true, [], All, Ok, Err, IfOk, IfErr, IfSome, OnErr, bytes_eq, map};
ghost use Rattle.std.proofs.Props.{props};
ghost use Rattle.std.specs.List.{list_any};
ghost use Rattle.image_source.specs.Facing.{facing_sides};
ghost use Rattle.path_calc.specs.Lengths.{is_within};
ghost use Rattle.path_calc.specs.Prepared.{prepared_of};
ghost use Rattle.path_cache.specs.Frames.{Holds};
ghost use Rattle.scene_parts.specs.Answers.{Unless};
ghost use Rattle.scene_book.specs.Applying.{apply_of, lacks_memory};
ghost use Rattle.scene_parts.specs.Parts.{sides_of};
ghost use Rattle.part_grid.specs.Numbered.{numbered};
ghost use Rattle.map_board.specs.inner.Sources.{LeavesSources, LeavesObstacles, puts_any_receiver};
ghost use Rattle.map_board.specs.inner.Sources.{is_source as is_source_part, is_obstacle as is_obstacle_part};

use path_cache::{Frame, PreparedSource, prepare};
use path_calc::{FacingSides, Grid, IndexedScene};
use scene_book::{Edit, EditFault, Scene};
use scene_geom::Pt;
use scene_parts::{NoMemory, Part};
use sight_cut::grid_of;
use std::alloc::Global;
use std::sync::Arc;

/// A scene whose sources are prepared and whose obstacles have an index, once for all jobs that are of it. Later scenes
/// and jobs share both until an edit changes a source, or an obstacle. Without receivers or sources no path is looked for,
/// and no index is made. A box round the sources tells at once of most receivers that each source reaches them.
#[derive(Drop)]
pub struct PreparedScene {
    pub scene: Scene,
    pub prepared: Arc<Vec<PreparedSource>>,
    pub grid: Option<Arc<Grid>>,
    pub frame: Frame,
    ghost ready: { prepared.value.items ≡ map prepared_of scene.sources },
    ghost stands: { IfSome grid (λ grid. grid.value ≡ numbered (map sides_of scene.obstacles)) } by { Prim.hlevel props },
    ghost framed: { Holds frame scene.sources },
}

impl PreparedScene {
    /// Prepares a scene.
    pub fn of(alloc: Global, scene: Scene) -> Result<PreparedScene, NoMemory>
        ensures { IfOk result (λ made. made.scene ≡ scene) }
    {
        let prepared = sources_of(alloc, &scene)?;
        let grid = index(alloc, &scene)?;
        let frame = Frame::of(scene.sources());
        Ok(PreparedScene {
            scene,
            prepared,
            grid,
            frame,
        })
    }

    /// What a job needs of it: the scene without its receivers, and what is prepared of it. All of it is shared, and an edit of
    /// receivers copies no list, also while jobs have the rest.
    pub(crate) fn without_receivers(&self) -> Result<PreparedScene, NoMemory>
        ensures { IfOk result (λ other. other.scene ≡ record self.now.scene { receivers = [] }) }
    {
        let scene = self.scene.without_receivers()?;
        let prepared = self.prepared.clone()?;
        let grid = match &self.grid {
            Some(grid) => Some(grid.clone()?),
            None => None,
        };
        Ok(PreparedScene {
            scene,
            prepared,
            grid,
            frame: self.frame,
        })
    }

    /// The scene with its index, where it has one.
    pub(crate) fn indexed(&self) -> IndexedScene<'_>
        ensures { result ≡ self.now.scene }
    {
        match &self.grid {
            Some(grid) => IndexedScene::by(&self.scene, grid),
            None => IndexedScene::plain(&self.scene),
        }
    }

    /// The same, and with the sides of its obstacles that may reflect to a place.
    pub(crate) fn indexed_beside<'a>(&'a self, facing: &'a FacingSides) -> IndexedScene<'a>
        requires stands { facing.now.sides ≡ facing_sides facing.now.at self.now.scene.obstacles }
        ensures { result ≡ self.now.scene }
    {
        self.indexed().beside(facing)
    }

    /// Whether surely each source reaches a receiver at a place.
    pub(crate) fn reaches(&self, at: Pt) -> bool
        ensures { result ≡ true
            → All (λ s. is_within self.now.scene.globals.reach s.at at ≡ true) self.now.scene.sources }
    {
        self.frame.is_within(self.scene.globals().reach, at)
    }

    /// Applies an edit that leaves the sources as they are, and the obstacles where they have an index.
    fn apply(&mut self, alloc: Global, edit: &Edit) -> Result<Option<Part>, EditFault>
        requires sources { LeavesSources edit.now self.old.scene }
        requires obstacles { IfSome self.old.grid (λ _. LeavesObstacles edit.now self.old.scene) }
        ensures made { IfOk result (λ old. apply_of edit.now self.old.scene ≡ Ok (self.new.scene, old)) }
        ensures fault { IfErr result (λ fault.
            Unless (lacks_memory fault) (apply_of edit.now self.old.scene ≡ Err fault)) }
        ensures unchanged { OnErr result (self.new.scene ≡ self.old.scene) }
    {
        self.scene.apply(alloc, edit)
    }
}

/// A scene after an edit, and the part that the edit replaced or took out.
#[derive(Drop)]
struct EditedScene {
    hold: PreparedScene,
    old: Option<Part>,
}

/// Applies an edit to a scene, and gives the part that it replaces or takes out. Where what is prepared of the scene stays, it
/// is changed in place, and the one list that the edit changes is copied first where a job shares it; else a copy is changed,
/// which takes its place. A fault leaves it as it was.
pub(crate) fn edit_scene(
    hold: &mut PreparedScene,
    alloc: Global,
    edit: &Edit,
) -> Result<Option<Part>, EditFault>
    ensures made { IfOk result (λ old. apply_of edit.now hold.old.scene ≡ Ok (hold.new.scene, old)) }
    ensures fault { IfErr result (λ fault.
        Unless (lacks_memory fault) (apply_of edit.now hold.old.scene ≡ Err fault)) }
    ensures unchanged { OnErr result (hold.new.scene ≡ hold.old.scene) }
{
    if stays_prepared(edit, hold) {
        return hold.apply(alloc, edit);
    }
    let EditedScene { hold: made, old } = edited_copy(alloc, hold, edit)?;
    *hold = made;
    Ok(old)
}

/// Whether an edit surely leaves what is prepared of a scene, and needs no index where there is none: receivers that come
/// where there are sources need one.
fn stays_prepared(edit: &Edit, hold: &PreparedScene) -> bool
    ensures sources { result ≡ true → LeavesSources edit.now hold.now.scene }
    ensures obstacles { result ≡ true → IfSome hold.now.grid (λ _. LeavesObstacles edit.now hold.now.scene) }
{
    if !leaves_sources(edit, &hold.scene) {
        return false;
    }
    match &hold.grid {
        Some(_) => leaves_obstacles(edit, &hold.scene),
        None => !puts_receivers(edit) || hold.scene.sources().is_empty(),
    }
}

/// Whether an edit puts receivers.
fn puts_receivers(edit: &Edit) -> bool
    ensures { result ≡ puts_any_receiver edit.now }
{
    match edit {
        Edit::Put(Part::Receiver(_)) => true,
        Edit::Grid(_) => true,
        _ => false,
    }
}

/// A copy of a scene after an edit. It shares the lists that the edit leaves as they are, and what is prepared of them.
fn edited_copy(alloc: Global, hold: &PreparedScene, edit: &Edit) -> Result<EditedScene, EditFault>
    ensures made { IfOk result (λ made. apply_of edit.now hold.now.scene
        ≡ Ok (made.hold.scene, made.old)) }
    ensures fault { IfErr result (λ fault.
        Unless (lacks_memory fault) (apply_of edit.now hold.now.scene ≡ Err fault)) }
{
    let (after, old) = applied(alloc, &hold.scene, edit)?;
    let sources_stay = leaves_sources(edit, &hold.scene);
    let obstacles_stay = leaves_obstacles(edit, &hold.scene);
    let hold = prepared_after(alloc, hold, after, sources_stay, obstacles_stay)?;
    Ok(EditedScene { hold, old })
}

/// A copy of a scene to which an edit is applied, and the part that the edit replaces or takes out.
fn applied(alloc: Global, scene: &Scene, edit: &Edit) -> Result<(Scene, Option<Part>), EditFault>
    ensures made { IfOk result (λ made. apply_of edit.now scene.now ≡ Ok made) }
    ensures fault { IfErr result (λ fault.
        Unless (lacks_memory fault) (apply_of edit.now scene.now ≡ Err fault)) }
{
    let mut after = scene.copy()?;
    let old = after.apply(alloc, edit)?;
    Ok((after, old))
}

/// The scene after an edit, prepared, of which it is known where its sources and where its obstacles stay.
fn prepared_after(
    alloc: Global,
    hold: &PreparedScene,
    after: Scene,
    sources_stay: bool,
    obstacles_stay: bool,
) -> Result<PreparedScene, NoMemory>
    requires sources { sources_stay ≡ true → after.sources ≡ hold.now.scene.sources }
    requires obstacles { obstacles_stay ≡ true → after.obstacles ≡ hold.now.scene.obstacles }
    ensures { IfOk result (λ made. made.scene ≡ after) }
{
    let prepared = sources_after(alloc, hold, &after, sources_stay)?;
    let grid = index_after(alloc, hold, &after, obstacles_stay)?;
    let frame = Frame::of(after.sources());
    Ok(PreparedScene {
        scene: after,
        prepared,
        grid,
        frame,
    })
}

/// The prepared sources of the scene after an edit, of which it is known where they stay.
fn sources_after(
    alloc: Global,
    hold: &PreparedScene,
    after: &Scene,
    stay: bool,
) -> Result<Arc<Vec<PreparedSource>>, NoMemory>
    requires { stay ≡ true → after.now.sources ≡ hold.now.scene.sources }
    ensures { IfOk result (λ prepared. prepared.value.items ≡ map prepared_of after.now.sources) }
{
    if stay {
        return Ok(hold.prepared.clone()?);
    }
    sources_of(alloc, after)
}

/// The prepared sources of a scene.
fn sources_of(alloc: Global, scene: &Scene) -> Result<Arc<Vec<PreparedSource>>, NoMemory>
    ensures { IfOk result (λ prepared. prepared.value.items ≡ map prepared_of scene.now.sources) }
{
    Ok(Arc::new(alloc, prepare(alloc, scene)?)?)
}

/// The index of the scene after an edit, of which it is known where its obstacles stay.
fn index_after(
    alloc: Global,
    hold: &PreparedScene,
    after: &Scene,
    stay: bool,
) -> Result<Option<Arc<Grid>>, NoMemory>
    requires { stay ≡ true → after.now.obstacles ≡ hold.now.scene.obstacles }
    ensures { IfOk result (λ grid.
        IfSome grid (λ grid. grid.value ≡ numbered (map sides_of after.now.obstacles))) }
{
    match &hold.grid {
        Some(grid) if stay => Ok(Some(grid.clone()?)),
        _ => index(alloc, after),
    }
}

/// The index of the obstacles of a scene, where it has sources and receivers.
fn index(alloc: Global, scene: &Scene) -> Result<Option<Arc<Grid>>, NoMemory>
    ensures { IfOk result (λ grid.
        IfSome grid (λ grid. grid.value ≡ numbered (map sides_of scene.now.obstacles))) }
{
    if scene.sources().is_empty() || scene.receivers().is_empty() {
        return Ok(None);
    }
    let grid = grid_of(alloc, scene.obstacles())?;
    Ok(Some(Arc::new(alloc, grid)?))
}

/// Whether an edit surely leaves the sources of a scene as they are.
fn leaves_sources(edit: &Edit, scene: &Scene) -> bool
    ensures { result ≡ true → LeavesSources edit.now scene.now }
{
    match edit {
        Edit::Put(part) => !is_source(part),
        Edit::Remove(name) => !has_source(scene, name.items()),
        Edit::Grid(_) => true,
        Edit::Set(_) => true,
    }
}

/// Whether a part is a source.
fn is_source(part: &Part) -> bool
    ensures { result ≡ is_source_part part.now }
{
    match part {
        Part::Source(_) => true,
        _ => false,
    }
}

/// Whether a source of a scene bears a name.
fn has_source(scene: &Scene, name: &[u8]) -> bool
    ensures { result ≡ list_any (λ s. bytes_eq name.now s.name) scene.now.sources }
{
    let sources = scene.sources();
    for source in sources {
        if name == source.name.items() {
            return true;
        }
    }
    false
}

/// Whether an edit surely leaves the obstacles of a scene as they are.
fn leaves_obstacles(edit: &Edit, scene: &Scene) -> bool
    ensures { result ≡ true → LeavesObstacles edit.now scene.now }
{
    match edit {
        Edit::Put(part) => !is_obstacle(part),
        Edit::Remove(name) => !has_obstacle(scene, name.items()),
        Edit::Grid(_) => true,
        Edit::Set(_) => true,
    }
}

/// Whether a part is an obstacle.
fn is_obstacle(part: &Part) -> bool
    ensures { result ≡ is_obstacle_part part.now }
{
    match part {
        Part::Obstacle(_) => true,
        _ => false,
    }
}

/// Whether an obstacle of a scene bears a name.
fn has_obstacle(scene: &Scene, name: &[u8]) -> bool
    ensures { result ≡ list_any (λ o. bytes_eq name.now o.name) scene.now.obstacles }
{
    let obstacles = scene.obstacles();
    for obstacle in obstacles {
        if name == obstacle.name.items() {
            return true;
        }
    }
    false
}
