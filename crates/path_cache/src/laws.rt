//! Laws of refreshes. Each function does nothing: its contract is the law.
ghost use Rattle.path_cache.specs.Refreshed.{StandingGivesTheScenes, ReceiversAreNotRead};
ghost use Rattle.path_cache.specs.Standing.{FullRowsStand, RowsWithinReachAreFull};

/// Where each unmarked kept bundle of a source within reach is the scene's, a refresh gives the scene's bundles.
pub fn standing_gives_the_scenes()
    ensures { StandingGivesTheScenes }
{}

/// A refresh of a receiver doesn't depend on which receivers the scene has.
pub fn receivers_are_not_read()
    ensures { ReceiversAreNotRead }
{}

/// Where a refresh gives as many bundles as the scene has sources, there is one of each source, in the order of sources, and
/// each source is within reach.
pub fn full_rows_stand()
    ensures { FullRowsStand }
{}

/// Where each source is within reach, a refresh gives as many bundles as the scene has sources.
pub fn rows_within_reach_are_full()
    ensures { RowsWithinReachAreFull }
{}
