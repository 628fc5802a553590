//! Laws of windows.
ghost use Rattle.feature_windows.specs.Laws.{BorderIsCore, PiecesAreOfFeatures, WindowsAddUp};

/// The border of a core has inside what the core has for its own.
pub fn border_is_core()
    ensures { BorderIsCore }
{}

/// What is found in a window is of the features, as far as its core goes.
pub fn pieces_are_of_features()
    ensures { PiecesAreOfFeatures }
{}

/// What an expression has in a core, just one of the windows has.
pub fn windows_add_up()
    ensures { WindowsAddUp }
{}
