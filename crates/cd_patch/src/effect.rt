//! Applies one patch: if it is accepted, each sector that it meets gets its part of the patched
//! user data, or the patch's address. The sector is then consistent, or keeps its old damage if
//! damage is carried.

ghost use Rattle.std.specs.Prelude.{◌≡◌, ℕ, ◌+◌, ◌*◌, ◌<◌, ◌≤◌, ◌++◌, All, drop, false, length, replicate, true};
ghost use Rattle.cd_script.specs.Limits.{offset_limit};
ghost use Rattle.cd_script.specs.Patch.{IsPatch};
ghost use Rattle.cd_sector.specs.Consistent.{IsConsistent, header_of, user_of};
ghost use Rattle.cd_sector.specs.Kind.{kind_of};
ghost use Rattle.cd_sector.specs.declared.kinds.SectorKind.TheVariants.{Mode1};
ghost use Rattle.cd_delta.specs.Writing.{with_range};
ghost use Rattle.cd_patch.specs.Blocks.{block_limit, blocks_met};
ghost use Rattle.cd_patch.specs.Deciding.{outcome};
ghost use Rattle.cd_patch.specs.EditMeaning.{keeps_defect, needs_consistent, new_bytes, new_header};
ghost use Rattle.cd_patch.specs.Effect.{Becomes, Effect};
ghost use Rattle.cd_patch.specs.Parts.{EachBecomes, HasPart, IsPart, bytes_to_write};

use crate::deciding::{decide, lemma_user_size};
use crate::edits::{NewBytes, blocks_met_lent, meaning};
use crate::outcome::Outcome;
use cd_delta::{carry_header, carry_user, change_header, change_user};
use cd_script::{LentBytes, Patch, lend};
use cd_sector::{Sector, USER_SIZE, rebuild};

/// Applies a patch to the sectors from its first block on: all that the image has, or the first
/// [`MAX_BLOCKS_MET`], which are enough for any patch. If the patch is accepted, each sector that
/// it meets becomes the one consistent sector with its part of the patched user data and the old
/// header, or the header with the patch's address. With `carry`, no sector is refused for its
/// damage, and each sector that is not rebuilt keeps its damage.
///
/// # Examples
///
/// ```
/// let script = parse(rt.alloc(), b"cdpatch 1\nset 0 0 41\n")?;
/// let mut sectors = [encode([0x00, 0x02, 0x00], &[0x00; USER_SIZE])]; // block 0
/// for patch in script.patches() {
///     assert_eq!(rt; apply_patch(&mut sectors, patch, false), Outcome::Applied);
/// }
/// ```
pub fn apply_patch(sectors: &mut [Sector], patch: &Patch, carry: bool) -> Outcome
    requires { IsPatch patch.now }
    ensures outcome { result ≡ outcome carry sectors.old patch.now.block patch.now }
    ensures effect { Effect carry patch.now.block patch.now sectors.old sectors.new }
{
    apply_lent(sectors, &lend(patch), carry)
}

/// As [`apply_patch`], for a patch whose bytes are borrowed, so that a caller needs no memory of
/// its own.
///
/// # Examples
///
/// ```
/// let bytes = LentBytes::new(b"A");
/// let patch = Patch {
///     line: 2,
///     block: 0,
///     offset: 0,
///     edit: Edit::Put { bytes, was: None },
/// };
/// let mut sectors = [encode([0x00, 0x02, 0x00], &[0x00; USER_SIZE])]; // block 0
/// if is_patch(&patch) {
///     assert_eq!(rt; apply_lent(&mut sectors, &patch, false), Outcome::Applied);
/// }
/// ```
pub fn apply_lent(sectors: &mut [Sector], patch: &Patch<LentBytes<'_>>, carry: bool) -> Outcome
    requires { IsPatch patch.now }
    ensures outcome { result ≡ outcome carry sectors.old patch.now.block patch.now }
    ensures effect { Effect carry patch.now.block patch.now sectors.old sectors.new }
{
    let count = blocks_met_lent(patch);
    let outcome = decide(sectors, patch, count, carry);
    if outcome.is_applied() {
        change_blocks(&mut sectors[..count], patch, carry);
    }
    outcome
}

/// Changes the sectors that an accepted patch meets.
fn change_blocks(sectors: &mut [Sector], patch: &Patch<LentBytes<'_>>, carry: bool)
    requires patch { IsPatch patch.now }
    requires met { length sectors.old ≡ blocks_met patch.now }
    requires mode { All (λ s. kind_of s ≡ Mode1) sectors.old }
    requires sound { needs_consistent carry patch.now.edit ≡ true → All IsConsistent sectors.old }
    ensures { EachBecomes
        (λ k before after. HasPart (keeps_defect carry patch.now.edit) k patch.now.offset
        (new_bytes patch.now.edit) (new_header patch.now.edit (header_of before)) before after)
        sectors.old sectors.new }
{
    for k in 0..sectors.len() {
        change_sector(&mut sectors[k], k, patch, carry);
    }
}

/// Changes the sector with index `k` among those that an accepted patch meets. User data and
/// addresses are written by differences; a rebuild encodes the sector, since the parity of a
/// damaged sector may be wrong too. Both give the one consistent sector.
fn change_sector(sector: &mut Sector, k: usize, patch: &Patch<LentBytes<'_>>, carry: bool)
    requires patch { IsPatch patch.now }
    requires met { k < blocks_met patch.now }
    requires mode { kind_of sector.old ≡ Mode1 }
    requires sound { needs_consistent carry patch.now.edit ≡ true → IsConsistent sector.old }
    ensures { HasPart (keeps_defect carry patch.now.edit) k patch.now.offset
        (new_bytes patch.now.edit) (new_header patch.now.edit (header_of sector.old))
        sector.old sector.new }
{
    let edit = meaning(&patch.edit);
    if edit.keeps_old {
        match edit.address {
            Some(bcd) => write_address(sector, bcd, carry),
            None => write_part(sector, k, patch.offset, edit.bytes, carry),
        }
    } else {
        rebuild(sector);
    }
}

/// Writes an address into the header of a sector. The mode byte stays 01, since `decide` has tested
/// the kind. Whether the address is the block's own is not tested here: `audit` reports a wrong
/// address.
fn write_address(sector: &mut Sector, bcd: [u8; 3], carry: bool)
    requires mode { kind_of sector.old ≡ Mode1 }
    requires sound { carry ≡ false → IsConsistent sector.old }
    ensures { Becomes carry sector.old (bcd ++ drop 3 (header_of sector.old))
        (user_of sector.old) sector.new }
{
    if carry {
        carry_header(sector, bcd);
    } else {
        change_header(sector, bcd);
    }
}

/// Writes the bytes of a range that lie in the sector with index `k`.
fn write_part(sector: &mut Sector, k: usize, offset: u16, bytes: NewBytes<'_>, carry: bool)
    requires mode { kind_of sector.old ≡ Mode1 }
    requires sound { carry ≡ false → IsConsistent sector.old }
    requires few { k < block_limit }
    requires offset { offset < USER_SIZE }
    requires some { USER_SIZE * k < offset + length (bytes_to_write bytes) }
    requires room { offset + length (bytes_to_write bytes) ≤ USER_SIZE * block_limit }
    ensures { HasPart carry k offset (bytes_to_write bytes.entry) (header_of sector.old)
        sector.old sector.new }
{
    let part = part_of_block(k, offset as usize, bytes.len());
    match bytes {
        NewBytes::Borrowed(bytes) => write_user(
            sector,
            part.place,
            &bytes[part.first..part.end],
            carry,
        ),
        NewBytes::Repeated(_, value) => {
            let bytes = [value; USER_SIZE];
            write_user(sector, part.place, &bytes[..part.end - part.first], carry);
        }
    }
}

/// Writes bytes into the user data of a sector. For a consistent sector both calls give the same
/// result. Only if damage is carried does the sector's old EDC cost a division, and the clauses
/// proved of `change_user` need no condition on damage.
fn write_user(sector: &mut Sector, place: u16, bytes: &[u8], carry: bool)
    requires mode { kind_of sector.old ≡ Mode1 }
    requires range { place + length bytes.now ≤ 2048 }
    requires sound { carry ≡ false → IsConsistent sector.old }
    ensures made { Becomes carry sector.old (header_of sector.old)
        (with_range (user_of sector.old) place bytes.now) sector.new }
    ensures size { length (user_of sector.old) ≡ USER_SIZE }
{
    // Proof step: the range lies in 2048 bytes.
    lemma_user_size(sector);
    if carry {
        carry_user(sector, place, bytes);
    } else {
        change_user(sector, place, bytes);
    }
}

/// The part of a range that lies in one block: the range's bytes from `first` to before `end`,
/// which begin at offset `place` of the block's user data.
#[derive(Clone, Copy)]
struct Part {
    place: u16,
    first: usize,
    end: usize,
}

/// The part of a range of `count` joined user bytes from `offset` on that lies in the block with
/// index `k`.
fn part_of_block(k: usize, offset: usize, count: usize) -> Part
    requires few { k < block_limit }
    requires offset { offset < 2048 * k + 2048 }
    requires end { 2048 * k < offset + count }
    requires most { offset + count ≤ USER_SIZE * block_limit }
    ensures { IsPart k offset count result.place result.first result.end }
{
    let before = USER_SIZE * k;
    let first = offset.max(before);
    let end = (offset + count).min(before + USER_SIZE);
    Part {
        place: (first - before) as u16,
        first: first - offset,
        end: end - offset,
    }
}
