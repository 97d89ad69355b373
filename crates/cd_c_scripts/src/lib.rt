//! The calls of C that read a script and apply it (`cdpatch_*` of `cdpatch.h`): they cut a text into
//! lines, read a line, apply a patch to sectors, read a script into entries, and apply entries to a
//! piece of an image. Each call passes its arguments on to the crates below, and repeats their
//! clauses. None allocates memory: a patch is a flat record, whose bytes are in buffers that the C
//! program provides. A call checks its arguments, but not that pointers are valid and not null, and
//! that its outputs overlap nothing else that is passed: the C program must ensure this.
#![tactic(auto)]

mod bases;
mod cutting;
mod entries;
mod flags;
mod flat_patch;
mod indexing;
mod laws;
mod lines;
mod patches;
mod pieces;
mod rereading;
