//! A run of patches over an image, without input or output. It determines the next step; its caller
//! reads and writes the bytes, and lends the memory of the sectors in hand.

ghost use Rattle.std.specs.Prelude.{◌≡◌, ◌≢◌, ℕ, ◌+◌, ◌-◌, ◌*◌, ◌<◌, ◌≤◌, ◌⊎◌, ◌↔◌, ◌++◌, [], ◌∷◌, All, Bool, IfSome, IsSome, IsSomeAnd, IsTrue, List, Some, drop, length, take};
ghost use Rattle.std.specs.List.{slice_index_or};
ghost use Rattle.std.specs.List.Sorted.{IsNonDecreasingBy};
ghost use Rattle.cd_script.specs.Limits.{patch_limit};
ghost use Rattle.cd_script.specs.Patch.{IsPatch};
ghost use Rattle.cd_script.specs.PatchForm.{Patch as ThePatch};
ghost use Rattle.cd_patch.specs.Blocks.{block_limit, blocks_met};
ghost use Rattle.cd_patch.specs.Deciding.{outcome};
ghost use Rattle.cd_patch.specs.Effect.{Effect};
ghost use Rattle.cd_patch.specs.declared.outcome.Outcome.{Outcome as TheOutcome};
ghost use Rattle.cd_patch.specs.declared.outcome.Outcome.TheVariants.{NoBlock};
ghost use Rattle.cd_sector.specs.Image.{image_limit, sector_limit};
ghost use Rattle.cd_run.specs.declared.run.Ahead.{Ahead as TheAhead};
ghost use Rattle.cd_run.specs.declared.run.Step.TheVariants.{Copy, Decide, Read};
ghost use Rattle.cd_run.specs.Running.{HasReached, IsRun, tail_of};
ghost use Rattle.cd_run.specs.Steps.{IsAhead, IsNext, IsReady, MayDecide};

use cd_patch::{MAX_BLOCKS_MET, Outcome, apply_lent};
use cd_script::{LentBytes, Patch};
use cd_sector::{MAX_SECTORS, SECTOR_SIZE, Sector};

/// The image may have more bytes.
const OPEN: u32 = 0;

/// The image has ended, and its tail is in hand.
const ENDED: u32 = 1;

/// The tail was sent.
const CLOSED: u32 = 2;

/// The next step of a run.
#[derive(Clone, Copy, Debug, PartialEq, Eq)]
pub enum Step {
    /// The next sectors, at most this many, can be sent unchanged: no patch meets them, and no
    /// sector is in hand. A caller that cannot copy them reads one sector instead.
    Copy(u32),
    /// A sector, or the tail, has to be read.
    Read,
    /// The next patch has to be decided.
    Decide,
    /// The first sector in hand has to be sent.
    Send,
    /// The tail has to be sent.
    SendTail,
    /// The run is complete.
    End,
}

/// The next patch, as far as a run has to know it.
#[derive(Clone, Copy, Debug)]
pub struct Ahead {
    /// The block in which it begins.
    pub block: u32,
    /// The number of blocks that it meets. It is used only if the patch begins at the first block
    /// that was not sent.
    pub blocks_met: u32,
}

/// The progress of a run. It does not contain the sectors in hand: its caller lends the memory that
/// holds them, at its front and in the order in which they were read. The next sector, or the tail,
/// is read into the place after them. The fields may have any values; [`PatchRun::is_run`] tests
/// whether they are those of a run.
#[derive(Clone, Copy, Debug, PartialEq, Eq)]
#[repr(C)]
pub struct PatchRun {
    /// The number of sectors in hand.
    pub held: u32,
    /// The first block that was not sent.
    pub block: u32,
    /// The number of sectors that were read or copied.
    pub sectors: u32,
    /// The number of patches that were decided.
    pub decided: u32,
    /// The number of these patches that were accepted.
    pub applied: u32,
    /// The number of bytes of the tail.
    pub tail: u32,
    /// 0 while the image may have more bytes, 1 after its end, 2 once the tail was sent.
    pub stage: u32,
}

impl PatchRun {
    /// Creates a run before its first sector, which is the sector of block `base`.
    ///
    /// See the example of [`PatchRun::next`].
    pub fn new(base: u32) -> Self
        ensures sound { IsRun result }
        ensures block { result.block ≡ base }
        ensures held { result.held ≡ 0 }
        ensures sectors { result.sectors ≡ 0 }
        ensures decided { result.decided ≡ 0 }
        ensures applied { result.applied ≡ 0 }
        ensures tail { result.tail ≡ 0 }
        ensures stage { result.stage ≡ 0 }
    {
        PatchRun {
            held: 0,
            block: base,
            sectors: 0,
            decided: 0,
            applied: 0,
            tail: 0,
            stage: OPEN,
        }
    }

    /// The next step, if no remaining patch begins within `distance` blocks from the front block
    /// on.
    fn next_between(&self, distance: u32) -> Step
        requires sound { IsRun self.now }
        requires some { 0 < distance }
        ensures ready { IsReady self.now result }
        ensures other { result ≢ Decide }
        ensures asked { result ≡ Read → self.now.sectors ≡ sector_limit }
        ensures most { (count : ℕ) → result ≡ Copy count
            → (count ≡ distance) ⊎ (self.now.sectors + count ≡ sector_limit) }
        ensures next { (left : List ThePatch)
            → All (λ p. self.now.block + distance ≤ p.block) left
            → (self.now.stage ≡ 2 → left ≡ [])
            → IsNext left self.now result }
    {
        if self.held > 0 {
            Step::Send
        } else if self.stage == OPEN {
            if self.sectors < MAX_SECTORS {
                Step::Copy(distance.min(MAX_SECTORS - self.sectors))
            } else {
                Step::Read
            }
        } else if self.stage == ENDED {
            Step::SendTail
        } else {
            Step::End
        }
    }

    /// The next step, if the first remaining patch begins at the front block and meets `met`
    /// blocks.
    fn next_at_front(&self, met: u32) -> Step
        requires sound { IsRun self.now }
        requires open { self.now.stage ≤ 1 }
        requires few { (0 < met) × (met ≤ block_limit) }
        ensures ready { IsReady self.now result }
        ensures other { (count : ℕ) → result ≢ Copy count }
        ensures reads { result ≡ Read → self.now.held < met }
        ensures next { (left others : List ThePatch) (p : ThePatch) → left ≡ p ∷ others
            → p.block ≡ self.now.block → blocks_met p ≡ met
            → All (λ p. self.now.block ≤ p.block) left
            → IsNext left self.now result }
    {
        if self.stage == ENDED && self.held == 0 {
            Step::SendTail
        } else if self.stage == OPEN && self.held < met {
            Step::Read
        } else {
            Step::Decide
        }
    }

    /// Returns the next step of the run. `ahead` is the first remaining patch, or `None` if no
    /// patch remains.
    ///
    /// # Examples
    ///
    /// ```
    /// let mut run = PatchRun::new(150);
    /// let patch = Ahead {
    ///     block: 153,
    ///     blocks_met: 1,
    /// };
    /// assert_eq!(rt; run.next(Some(patch)), Step::Copy(3)); // blocks 150 to 152, as they are
    /// run.copied(3);
    /// assert_eq!(rt; run.next(Some(patch)), Step::Read);
    /// run.took_end(16); // an image of three sectors and 16 bytes
    /// assert_eq!(rt; run.next(Some(patch)), Step::SendTail);
    /// run.sent_tail();
    /// assert_eq!(rt; run.next(Some(patch)), Step::Decide); // it is refused: there is no block 153
    /// assert_eq!(rt; run.next(None), Step::End);
    /// ```
    pub fn next(&self, ahead: Option<Ahead>) -> Step
        requires sound { IsRun self.now }
        requires few { IfSome ahead (λ a. (0 < a.blocks_met) × (a.blocks_met ≤ block_limit)) }
        ensures ready { IsReady self.now result }
        ensures some { result ≡ Decide → IsSome ahead }
        // A sector is read only if a patch needs it, and as many sectors are copied as possible.
        ensures looks { result ≡ Read → (self.now.sectors ≡ sector_limit) ⊎ IsSomeAnd ahead
            (λ a. (a.block ≡ self.now.block) × (self.now.held < a.blocks_met)) }
        ensures most { (count : ℕ) → result ≡ Copy count → (self.now.sectors + count ≡ sector_limit)
            ⊎ ((a : TheAhead) × (ahead ≡ Some a) × (a.block ≡ self.now.block + count)) }
        ensures next { (left : List ThePatch) → IsAhead left self.now.block ahead
            → IsNonDecreasingBy (λ p. p.block) left
            → (((self.now.sectors ≡ 0) × (self.now.stage ≡ 0))
            ⊎ All (λ p. self.now.block ≤ p.block) left)
            → IsNext left self.now result }
    {
        match ahead {
            None => self.next_between(u32::MAX),
            Some(first) => {
                if self.stage == CLOSED {
                    Step::Decide
                } else if first.block < self.block {
                    Step::Decide
                } else if first.block > self.block {
                    self.next_between(first.block - self.block)
                } else {
                    self.next_at_front(first.blocks_met)
                }
            }
        }
    }

    /// Records that a sector was read, into the place after those in hand.
    ///
    /// See the example of [`PatchRun::decide`].
    pub fn took_sector(&mut self)
        requires sound { IsRun self.old }
        requires open { self.old.stage ≡ 0 }
        requires room { self.old.held < block_limit }
        requires few { self.old.sectors < sector_limit }
        ensures sound { IsRun self.new }
        ensures goes { (carry : Bool) (taken left : List ThePatch) (base : ℕ)
            (seen done : List (List ℕ)) (outcomes : List TheOutcome) (hand : List (List ℕ))
            → length (slice_index_or hand self.old.held []) ≡ SECTOR_SIZE
            → All (λ p. self.old.block ≤ p.block) left
            → HasReached carry taken left base seen done outcomes self.old hand
            → HasReached carry taken left base
            (seen ++ slice_index_or hand self.old.held [] ∷ []) done outcomes self.new hand }
        ensures held { self.new.held ≡ self.old.held + 1 }
        ensures sectors { self.new.sectors ≡ self.old.sectors + 1 }
        ensures decided { self.new.decided ≡ self.old.decided }
        ensures applied { self.new.applied ≡ self.old.applied }
        ensures block { self.new.block ≡ self.old.block }
        ensures tail { self.new.tail ≡ self.old.tail }
        ensures stage { self.new.stage ≡ self.old.stage }
    {
        self.held += 1;
        self.sectors += 1;
    }

    /// Records that the image has ended, after `tail` bytes in the place after the sectors in hand.
    ///
    /// See the example of [`PatchRun::next`].
    pub fn took_end(&mut self, tail: u32)
        requires sound { IsRun self.old }
        requires open { self.old.stage ≡ 0 }
        requires room { self.old.held < block_limit }
        requires short { tail < SECTOR_SIZE }
        requires within { SECTOR_SIZE * self.old.sectors + tail ≤ image_limit }
        ensures sound { IsRun self.new }
        ensures goes { (carry : Bool) (taken left : List ThePatch) (base : ℕ)
            (seen done : List (List ℕ)) (outcomes : List TheOutcome) (hand : List (List ℕ))
            → tail ≤ length (slice_index_or hand self.old.held [])
            → All (λ p. self.old.block ≤ p.block) left
            → HasReached carry taken left base seen done outcomes self.old hand
            → HasReached carry taken left base seen done outcomes self.new hand }
        ensures tail_comes { (hand : List (List ℕ)) → tail_of self.new hand
            ≡ Some (take tail (slice_index_or hand self.old.held [])) }
        ensures held { self.new.held ≡ self.old.held }
        ensures sectors { self.new.sectors ≡ self.old.sectors }
        ensures decided { self.new.decided ≡ self.old.decided }
        ensures applied { self.new.applied ≡ self.old.applied }
        ensures block { self.new.block ≡ self.old.block }
        ensures tail { self.new.tail ≡ tail }
        ensures stage { self.new.stage ≡ 1 }
    {
        self.tail = tail;
        self.stage = ENDED;
    }

    /// Records that `count` sectors were read and sent unchanged.
    ///
    /// See the example of [`PatchRun::next`].
    pub fn copied(&mut self, count: u32)
        requires sound { IsRun self.old }
        requires open { self.old.stage ≡ 0 }
        requires empty { self.old.held ≡ 0 }
        requires few { self.old.sectors + count ≤ sector_limit }
        requires small { self.old.block + count < 4294967296 }
        ensures sound { IsRun self.new }
        ensures goes { (carry : Bool) (taken left : List ThePatch) (base : ℕ)
            (seen done : List (List ℕ)) (outcomes : List TheOutcome) (more hand : List (List ℕ))
            → All (λ p. self.old.block + count ≤ p.block) left
            → All (λ sector. length sector ≡ SECTOR_SIZE) more → length more ≡ count
            → HasReached carry taken left base seen done outcomes self.old hand
            → HasReached carry taken left base (seen ++ more) (done ++ more) outcomes self.new hand }
        ensures held { self.new.held ≡ 0 }
        ensures sectors { self.new.sectors ≡ self.old.sectors + count }
        ensures decided { self.new.decided ≡ self.old.decided }
        ensures applied { self.new.applied ≡ self.old.applied }
        ensures block { self.new.block ≡ self.old.block + count }
        ensures tail { self.new.tail ≡ self.old.tail }
        ensures stage { self.new.stage ≡ self.old.stage }
    {
        self.sectors += count;
        self.block += count;
    }

    /// Decides the next patch, and applies it to the sectors in hand if it is accepted. Its log
    /// line is due now.
    ///
    /// # Examples
    ///
    /// ```
    /// let bytes = LentBytes::new(b"A");
    /// let patch = Patch {
    ///     line: 2,
    ///     block: 0,
    ///     offset: 0,
    ///     edit: Edit::Put { bytes, was: None },
    /// };
    /// let mut hand = [encode([0x00, 0x02, 0x00], &[0x00; USER_SIZE])]; // block 0
    /// let mut run = PatchRun::new(0);
    /// run.took_sector();
    /// if is_patch(&patch) {
    ///     assert_eq!(rt; run.decide(&mut hand, &patch, false), Outcome::Applied);
    /// }
    /// let sectors = &hand[..];
    /// assert_eq!(rt; sectors[0].user().first(), Some(&b'A'));
    /// run.sent_front(&mut hand);
    /// ```
    pub fn decide(
        &mut self,
        hand: &mut [Sector],
        patch: &Patch<LentBytes<'_>>,
        carry: bool,
    ) -> Outcome
        requires sound { IsRun self.old }
        requires within { self.old.held ≤ length hand.old }
        requires patch { IsPatch patch.now }
        requires few { self.old.decided < patch_limit }
        requires small { self.old.applied ≤ self.old.decided }
        ensures sound { IsRun self.new }
        ensures goes { (taken left : List ThePatch) (base : ℕ)
            (seen done : List (List ℕ)) (outcomes : List TheOutcome)
            → MayDecide patch.now self.old.held self.old.block self.old.sectors self.old.stage
            → HasReached carry taken (patch.now ∷ left) base seen done outcomes self.old hand.old
            → HasReached carry (taken ++ patch.now ∷ []) left base seen done (outcomes ++ result ∷ [])
            self.new hand.new }
        ensures size { length hand.new ≡ length hand.old }
        ensures place { slice_index_or hand.new self.old.held []
            ≡ slice_index_or hand.old self.old.held [] }
        ensures rest { drop self.old.held hand.new ≡ drop self.old.held hand.old }
        ensures tail_stays { tail_of self.new hand.new ≡ tail_of self.old hand.old }
        ensures missing { self.old.held ≡ 0 → result ≡ NoBlock patch.now.block }
        ensures held { self.new.held ≡ self.old.held }
        ensures sectors { self.new.sectors ≡ self.old.sectors }
        ensures decided { self.new.decided ≡ self.old.decided + 1 }
        ensures applied { self.new.applied ≤ self.old.applied + 1 }
        ensures block { self.new.block ≡ self.old.block }
        ensures tail { self.new.tail ≡ self.old.tail }
        ensures stage { self.new.stage ≡ self.old.stage }
    {
        let outcome = apply_among(hand, self.held, patch, carry);
        self.decided += 1;
        self.applied += u32::from(outcome.is_applied());
        outcome
    }

    /// The bytes of the tail.
    ///
    /// # Examples
    ///
    /// ```
    /// let hand = [Sector::from_bytes([0x41; SECTOR_SIZE])];
    /// let mut run = PatchRun::new(0);
    /// run.took_end(2);
    /// assert_eq!(rt; run.tail_in(&hand), b"AA".as_slice());
    /// ```
    pub fn tail_in<'a>(&self, hand: &'a [Sector]) -> &'a [u8]
        requires sound { IsRun self.now }
        requires ended { 0 < self.now.stage }
        requires within { self.now.held < length hand.now }
        ensures bytes { tail_of self.now hand.now ≡ Some result.now }
        ensures short { length result.now < SECTOR_SIZE }
        ensures size { length result.now ≡ self.now.tail }
    {
        &hand[self.held as usize].bytes()[..self.tail as usize]
    }

    /// Records that the first sector in hand was sent, and moves the sectors and the tail after it,
    /// if any, to the front.
    ///
    /// See the example of [`PatchRun::decide`].
    pub fn sent_front(&mut self, hand: &mut [Sector])
        requires sound { IsRun self.old }
        requires some { 0 < self.old.held }
        requires within { self.old.held + self.old.stage ≤ length hand.old }
        requires small { self.old.block < 4294967295 }
        ensures sound { IsRun self.new }
        ensures goes { (carry : Bool) (taken left : List ThePatch) (base : ℕ)
            (seen done : List (List ℕ)) (outcomes : List TheOutcome)
            → All (λ p. self.old.block < p.block) left
            → HasReached carry taken left base seen done outcomes self.old hand.old
            → HasReached carry taken left base seen (done ++ slice_index_or hand.old 0 [] ∷ [])
            outcomes self.new hand.new }
        ensures size { length hand.new ≡ length hand.old }
        ensures rest { drop (self.old.held + self.old.stage) hand.new
            ≡ drop (self.old.held + self.old.stage) hand.old }
        ensures tail_stays { tail_of self.new hand.new ≡ tail_of self.old hand.old }
        ensures held { self.new.held + 1 ≡ self.old.held }
        ensures sectors { self.new.sectors ≡ self.old.sectors }
        ensures decided { self.new.decided ≡ self.old.decided }
        ensures applied { self.new.applied ≡ self.old.applied }
        ensures block { self.new.block ≡ self.old.block + 1 }
        ensures tail { self.new.tail ≡ self.old.tail }
        ensures stage { self.new.stage ≡ self.old.stage }
    {
        lemma_size(&hand[0]);
        remove_first(hand, self.held, self.stage);
        self.held -= 1;
        self.block += 1;
    }

    /// Records that the tail was sent.
    ///
    /// See the example of [`PatchRun::next`].
    pub fn sent_tail(&mut self)
        requires sound { IsRun self.old }
        requires ended { self.old.stage ≡ 1 }
        requires empty { self.old.held ≡ 0 }
        ensures sound { IsRun self.new }
        ensures goes { (carry : Bool) (taken left : List ThePatch) (base : ℕ)
            (seen done : List (List ℕ)) (outcomes : List TheOutcome) (hand : List (List ℕ))
            → HasReached carry taken left base seen done outcomes self.old hand
            → HasReached carry taken left base seen done outcomes self.new hand }
        ensures tail_stays { (hand : List (List ℕ)) → tail_of self.new hand ≡ tail_of self.old hand }
        ensures held { self.new.held ≡ 0 }
        ensures sectors { self.new.sectors ≡ self.old.sectors }
        ensures decided { self.new.decided ≡ self.old.decided }
        ensures applied { self.new.applied ≡ self.old.applied }
        ensures block { self.new.block ≡ self.old.block }
        ensures tail { self.new.tail ≡ self.old.tail }
        ensures stage { self.new.stage ≡ 2 }
    {
        self.stage = CLOSED;
    }

    /// Whether the fields have values that a run may have.
    ///
    /// # Examples
    ///
    /// ```
    /// let mut run = PatchRun::new(0);
    /// assert!(rt; run.is_run());
    /// run.held = 4; // more than a patch may meet
    /// assert!(rt; !run.is_run());
    /// ```
    pub fn is_run(&self) -> bool
        ensures { IsTrue result ↔ IsRun self.now }
    {
        self.stage <= CLOSED
            && self.held as usize <= MAX_BLOCKS_MET
            && (self.stage == OPEN || (self.held as usize) < MAX_BLOCKS_MET)
            && (self.stage != CLOSED || self.held == 0)
            && (self.tail as usize) < SECTOR_SIZE
            && self.sectors <= MAX_SECTORS
    }
}

/// Proof step: does nothing. Its contract says that a sector has 2352 bytes.
fn lemma_size(sector: &Sector)
    ensures { length sector.now ≡ SECTOR_SIZE }
{
    sector.bytes();
}

/// Removes the first of `held` sectors: moves the others, and then the tail if the image has ended,
/// one place to the front.
fn remove_first(hand: &mut [Sector], held: u32, stage: u32)
    requires some { 0 < held }
    requires few { held ≤ block_limit }
    requires open { stage ≤ 1 }
    requires within { held + stage ≤ length hand.old }
    ensures sectors { take (held - 1) hand.new ≡ drop 1 (take held hand.old) }
    ensures tail { 0 < stage
        → slice_index_or hand.new (held - 1) [] ≡ slice_index_or hand.old held [] }
    ensures rest { drop (held + stage) hand.new ≡ drop (held + stage) hand.old }
    ensures size { length hand.new ≡ length hand.old }
{
    let used = (held + stage) as usize;
    if used > 1 {
        hand[..used].rotate_left(1);
    }
}

/// Applies a patch to the first `held` places: the sectors from its block on, or none.
fn apply_among(hand: &mut [Sector], held: u32, patch: &Patch<LentBytes<'_>>, carry: bool) -> Outcome
    requires patch { IsPatch patch.now }
    requires within { held ≤ length hand.old }
    ensures outcome { result ≡ outcome carry (take held hand.old) patch.now.block patch.now }
    ensures effect { Effect carry patch.now.block patch.now
        (take held hand.old) (take held hand.new) }
    ensures size { length hand.new ≡ length hand.old }
    ensures others { slice_index_or hand.new held [] ≡ slice_index_or hand.old held [] }
    ensures rest { drop held hand.new ≡ drop held hand.old }
{
    apply_lent(&mut hand[..held as usize], patch, carry)
}
