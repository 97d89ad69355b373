//! Laws of the calls, each the contract of a function that does nothing.

ghost use Rattle.cd_c_scripts.specs.NumberLaws.{OutcomesAreRead};
ghost use Rattle.cd_c_scripts.specs.Pieces.{EntriesAreAsAsked, EntriesAreLeft, EntriesAreOfOne, PiecesAreOfImages, PiecesFollow, StreamsAreOfImages};

/// The number and the place that `cdpatch_apply_patch` gives for an outcome mean the same outcome
/// to `cdpatch_outcome_line`.
pub fn outcome_numbers_agree()
    ensures { OutcomesAreRead }
{}

/// Patches that fit on a piece of an image are these patches on the whole image.
pub fn pieces_are_of_images()
    ensures { PiecesAreOfImages }
{}

/// One piece after the other is all patches on the image.
pub fn pieces_follow()
    ensures { PiecesFollow }
{}

/// The patches that a call finds for entries of a script are the script's.
pub fn entries_are_of_one()
    ensures { EntriesAreOfOne }
{}

/// The entries of a script are entries of its patches as any flags require them.
pub fn entries_are_as_asked()
    ensures { EntriesAreAsAsked }
{}

/// After a call, the entries that are left are entries of the patches that are left.
pub fn entries_are_left()
    ensures { EntriesAreLeft }
{}

/// A client that applies a script piece by piece makes the patched image, whatever its pieces are.
pub fn streams_are_of_images()
    ensures { StreamsAreOfImages }
{}
