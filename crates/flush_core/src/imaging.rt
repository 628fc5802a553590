//! Images of versions.
ghost use Rattle.std.specs.Prelude.{◌≡◌, IfOk};
ghost use Rattle.commit_plan.specs.ImageHeld.{image_held};
ghost use Rattle.flush_core.specs.Imaging.{version_held};
ghost use Rattle.flush_core.specs.Stored.{IsImageOf};

use commit_plan::image::Image;
use std::alloc::{AllocError, Global};
use versions::Version;

/// What a commit of a version writes: its number, its layers and all its finished tiles. It shares them.
pub fn image_of(alloc: Global, version: &Version) -> Result<Image, AllocError>
    ensures value { IfOk result (λ image. image_held image ≡ version_held version.now) }
    // It answers for each tile as the version does.
    ensures tiles { IfOk result (λ image. IsImageOf version.now (image_held image)) }
{
    let table = version.table(alloc)?;
    Ok(Image::of_table(version.number(), table))
}
