//! Laws of patched images. Each is the contract of a function that does nothing.

ghost use Rattle.cd_run.specs.LogSize.{LogIsShort};
ghost use Rattle.cd_run.specs.Patched.{PatchedCarries, PatchedExists, PatchedIsDetermined};

/// The patches and the image determine the patched image and the outcomes of the patches.
pub fn patched_is_determined()
    ensures { PatchedIsDetermined }
{}

/// Each list of patches can be applied to each image of bytes.
pub fn patched_exists()
    ensures { PatchedExists }
{}

/// If damage is carried, no patch is refused for damage, and each sector that no patch has rebuilt
/// keeps its damage.
pub fn patched_carries()
    ensures { PatchedCarries }
{}

/// The log of a script on an image has at most 76 bytes for each patch, and 38 for its last line.
pub fn log_is_short()
    ensures { LogIsShort }
{}
