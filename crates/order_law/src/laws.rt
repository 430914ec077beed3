//! What holds of scenes of the same parts, whatever their orders. Each function does nothing: its contract is the law.
ghost use Rattle.order_law.specs.Laws.{OrderLaw, ShownLaw};

/// Scenes of the same parts show each receiver with the same levels, to the last unit.
pub fn levels_ignore_order()
    ensures { OrderLaw }
{}

/// They show the same receivers, and no others, each with the same levels.
pub fn scenes_show_alike()
    ensures { ShownLaw }
{}
