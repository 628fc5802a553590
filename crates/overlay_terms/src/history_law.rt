//! Laws over histories: each function does nothing, and its contract is the law.

ghost use Rattle.overlay_terms.specs.HistoryLaws.{NewestHasCommands, OwnAreAmongAll};

/// The newest version of a history has the number of its start plus the count of the accepted batches, and the layers
/// of its start changed by each of them in turn.
pub fn newest_has_commands()
    ensures { NewestHasCommands }
{}

/// The batches of a session are those of all accepted batches that have its number.
pub fn own_are_among_all()
    ensures { OwnAreAmongAll }
{}
