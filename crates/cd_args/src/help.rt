//! The texts of the help of the program and of each command.

/// The description of the program.
pub(crate) const PROGRAM_ABOUT: &str =
    "List, audit and patch raw images of CDs (sectors of 2352 bytes, ECMA-130)";

/// The text at the end of the program's help: how to write a script, where output goes, the exit
/// statuses and, as the last line, the version.
pub(crate) const PROGRAM_MORE: &str = "\
Without arguments, cdpatch lists the image on standard input. If it waits for
input on a terminal, press Ctrl-D. 'cdpatch COMMAND --help' describes a command.

A script is a text file: the line 'cdpatch 1', then one patch per line. Empty
lines and lines that begin with '#' are skipped.

    cdpatch 1
    # write five bytes at offset 16 of block 1 if the old bytes are there
    set 1 16 48454C4C4F was 71FE284B05
    # the same, whatever is there now
    set 1 16 48454C4C4F
    # 2048 bytes of 00, starting at offset 0 of block 2
    fill 2 0 2048 00
    # EDC and parity of block 3, recalculated from its header and user data
    rebuild 3

Blocks, offsets (0 to 2047) and counts (1 to 4096) are decimal, bytes are hex.
A patch that runs past the end of a block continues in the next one. A script
that begins with 'cdpatch 2' may also have 'address 3 00:02:03', which writes
that address into the header of block 3.

    cdpatch check disc.bin english.txt            show what apply would do
    cdpatch apply disc.bin english.txt new.bin    write the patched image

All messages, including errors, go to standard output; the patched image goes
to OUT. Only Mode 1 sectors are patched.

Status:
  0  done
  1  a patch was refused, or audit has a finding
  2  an I/O error, an invalid script, or invalid arguments; OUT may be
     incomplete

cdpatch 2.0.0";

/// The description of `list`.
pub(crate) const LIST_ABOUT: &str = "List an image's sectors by kind";

/// The output of `list`, and its exit statuses.
pub(crate) const LIST_MORE: &str = "\
For each run of sectors of one kind it prints FIRST-LAST KIND: the first and
last block, and nosync, mode0, mode1, mode2 or other. Then it prints
'sectors S tail T', with T bytes after the last whole sector.

Status: 0 done; 2 an I/O error.";

/// The description of `audit`.
pub(crate) const AUDIT_ABOUT: &str = "Report what is wrong with an image's sectors";

/// The output of `audit`, and its exit statuses.
pub(crate) const AUDIT_MORE: &str = "\
For each Mode 1 sector with findings it prints the block's number and what was
found:
  address  the address in the header is not that of the block
  zeros    the eight bytes after the EDC are not all 00
  edc      the EDC does not match the bytes before it
  p=N      N of the 86 P columns are not code words
  q=N      N of the 52 Q diagonals are not code words
Then it prints 'sectors S mode1 M damaged D tail T'. Sectors of other kinds, and
sectors that lost their sync field or mode byte, are not audited: compare M
with S.

Status: 0 no findings; 1 findings; 2 an I/O error.";

/// The description of `check`.
pub(crate) const CHECK_ABOUT: &str = "Report what a script's patches would do to an image";

/// The output of `check`, and its exit statuses.
pub(crate) const CHECK_MORE: &str = "\
For each patch, in block order, it prints 'line L: applied' or
'line L: refused: WHY', and then 'applied A refused R'. No file is written.
'cdpatch --help' has an example of a script.

With --carry, patches on damaged sectors are accepted, and each sector keeps its
damage unless it is rebuilt. Use it to keep damage visible, or to restore bytes
with 'set' before a 'rebuild'. (Without --carry, put 'rebuild' first.)

Status: 0 all applied; 1 a patch refused; 2 an I/O error or an invalid script.";

/// The description of `apply`.
pub(crate) const APPLY_ABOUT: &str = "Apply a script to an image, into a new file";

/// The output of `apply`, and its exit statuses.
pub(crate) const APPLY_MORE: &str = "\
For each patch, in block order, it prints 'line L: applied' or
'line L: refused: WHY', and then 'applied A refused R'. A refused patch changes
nothing. OUT is as long as the image. After an error, OUT has the beginning of
the patched image, and may be empty or missing.
'cdpatch --help' has an example of a script.

With --carry, patches on damaged sectors are accepted, and each sector keeps its
damage unless it is rebuilt. Use it to keep damage visible, or to restore bytes
with 'set' before a 'rebuild'. (Without --carry, put 'rebuild' first.)

Status: 0 all applied; 1 a patch refused; 2 an I/O error or an invalid script.";
