//! Laws of the effect of patches on sectors. Each is the contract of a function that does nothing.

ghost use Rattle.cd_patch.specs.Laws.{HandSequenceIsRun, HandStandsForImage, LeavesOne, NeverDamaged, NothingToCarry, SequenceExists, SequenceIsDetermined, SequenceLeavesOthers, SequencesAgree};

/// The patches and the sectors determine the outcomes and the final sectors of a run.
pub fn sequence_is_determined()
    ensures { SequenceIsDetermined }
{}

/// Each list of patches has a run on each list of sectors.
pub fn sequence_exists()
    ensures { SequenceExists }
{}

/// If the first i + `MAX_BLOCKS_MET` sectors of two images are equal, the patches up to block base
/// + i have equal outcomes on both, and leave equal sectors 0 to i.
pub fn sequences_agree()
    ensures { SequencesAgree }
{}

/// A sector that no accepted patch meets is unchanged. Every other sector has the header and the
/// user data that the accepted patches leave in order. It is consistent, or has its old damage if
/// damage is carried and no patch has rebuilt the sector.
pub fn sequence_leaves_others()
    ensures { SequenceLeavesOthers }
{}

/// The conditions of `sequence_leaves_others` determine the result of a run.
pub fn leaves_one()
    ensures { LeavesOne }
{}

/// A patch has the same outcome on its hand as on the image, and putting the changed sectors back
/// gives the image that the patch leaves. The hand of a patch is the sectors from its first block
/// on: as many as the image has, and at most `MAX_BLOCKS_MET`.
pub fn hand_stands_for_image()
    ensures { HandStandsForImage }
{}

/// Applying patches in order, each to its hand of the sectors that the earlier ones left, and
/// putting each hand back, is a run on the image. Each run can be made this way.
pub fn hand_sequence_is_run()
    ensures { HandSequenceIsRun }
{}

/// A patch that is accepted without carrying damage is also accepted with it, and leaves equal
/// sectors.
pub fn nothing_to_carry()
    ensures { NothingToCarry }
{}

/// If damage is carried, no patch is refused for damage.
pub fn never_damaged()
    ensures { NeverDamaged }
{}
