//! Laws over what roots hold: each function does nothing, and its contract is the law.
ghost use Rattle.record_writing.specs.Stored.{HeldIsImage, HeldIsStored};

/// The tiles that a root holds may be in an image, whatever the file.
pub fn held_is_stored()
    ensures { HeldIsStored }
{}

/// What a root holds may be an image, where its version is at most 2^62.
pub fn held_is_image()
    ensures { HeldIsImage }
{}
