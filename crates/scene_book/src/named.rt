//! The five classes of a scene's lists: how each part is found, and how many of them there may be.
ghost use Rattle.std.specs.Prelude.{◌≡◌};
ghost use Rattle.scene_parts.specs.declared.parts.Class.TheVariants as classes;
ghost use Rattle.scene_book.specs.Book.{source_slot, obstacle_slot, zone_slot, foliage_slot, receiver_slot, class_of_shape};
ghost use Rattle.scene_book.specs.Applying.{name_of, class_of};

use super::register::Named;
use scene_parts::{
    Class, Foliage, Name, NoMemory, Obstacle, Part, PointSource, Receiver, Shape, Zone,
};

/// The sources of a scene.
pub const MAX_SOURCES: u32 = 128;

impl Named for PointSource {
    ghost slot = { source_slot };

    ghost CLASS = { classes.Source };

    ghost MOST = { source_slot.most };

    const CLASS: Class = Class::Source;

    const MOST: u32 = MAX_SOURCES;

    fn name(&self) -> &[u8] {
        self.name.items()
    }

    fn copy(&self) -> Result<Self, NoMemory> {
        Ok(self.clone()?)
    }

    fn into_part(self) -> Part {
        Part::Source(self)
    }
}

/// The barriers and buildings of a scene together.
pub const MAX_OBSTACLES: u32 = 4096;

/// Their sides together.
pub const MAX_SIDES: u32 = 16384;

impl Named for Obstacle {
    ghost slot = { obstacle_slot };

    ghost CLASS = { classes.Obstacle };

    ghost MOST = { obstacle_slot.most };

    const CLASS: Class = Class::Obstacle;

    const MOST: u32 = MAX_OBSTACLES;

    fn name(&self) -> &[u8] {
        self.name.items()
    }

    fn copy(&self) -> Result<Self, NoMemory> {
        Ok(self.clone()?)
    }

    fn into_part(self) -> Part {
        Part::Obstacle(self)
    }
}

/// The zones of a scene.
pub const MAX_ZONES: u32 = 1024;

impl Named for Zone {
    ghost slot = { zone_slot };

    ghost CLASS = { classes.Zone };

    ghost MOST = { zone_slot.most };

    const CLASS: Class = Class::Zone;

    const MOST: u32 = MAX_ZONES;

    fn name(&self) -> &[u8] {
        self.name.items()
    }

    fn copy(&self) -> Result<Self, NoMemory> {
        Ok(self.clone()?)
    }

    fn into_part(self) -> Part {
        Part::Zone(self)
    }
}

/// The foliage of a scene.
pub const MAX_FOLIAGE: u32 = 1024;

impl Named for Foliage {
    ghost slot = { foliage_slot };

    ghost CLASS = { classes.Foliage };

    ghost MOST = { foliage_slot.most };

    const CLASS: Class = Class::Foliage;

    const MOST: u32 = MAX_FOLIAGE;

    fn name(&self) -> &[u8] {
        self.name.items()
    }

    fn copy(&self) -> Result<Self, NoMemory> {
        Ok(self.clone()?)
    }

    fn into_part(self) -> Part {
        Part::Foliage(self)
    }
}

/// The receivers of a scene.
pub const MAX_RECEIVERS: u32 = 4096;

impl Named for Receiver {
    ghost slot = { receiver_slot };

    ghost CLASS = { classes.Receiver };

    ghost MOST = { receiver_slot.most };

    const CLASS: Class = Class::Receiver;

    const MOST: u32 = MAX_RECEIVERS;

    fn name(&self) -> &[u8] {
        self.name.items()
    }

    fn copy(&self) -> Result<Self, NoMemory> {
        Ok(self.clone()?)
    }

    fn into_part(self) -> Part {
        Part::Receiver(self)
    }
}

/// The name of a part.
pub fn part_name(part: &Part) -> &Name
    ensures { result.now ≡ name_of part.now }
{
    match part {
        Part::Source(source) => &source.name,
        Part::Obstacle(obstacle) => &obstacle.name,
        Part::Zone(zone) => &zone.name,
        Part::Foliage(foliage) => &foliage.name,
        Part::Receiver(receiver) => &receiver.name,
    }
}

/// The class of a part.
pub(crate) fn part_class(part: &Part) -> Class
    ensures { result ≡ class_of part.now }
{
    match part {
        Part::Source(_) => Class::Source,
        Part::Obstacle(obstacle) => shape_class(obstacle.shape),
        Part::Zone(_) => Class::Zone,
        Part::Foliage(_) => Class::Foliage,
        Part::Receiver(_) => Class::Receiver,
    }
}

/// The class of a barrier or a building.
pub(crate) fn shape_class(shape: Shape) -> Class
    ensures { result ≡ class_of_shape shape }
{
    match shape {
        Shape::Barrier => Class::Barrier,
        Shape::Building => Class::Building,
    }
}
