//! The calls of C that use no script (`cdpatch_*` of `cdpatch.h`): on one sector or many, repairs of
//! a sector, lines and texts, and incremental SHA-1. Each call passes its arguments on to the crates
//! below, and repeats their clauses. None allocates memory. A call checks its arguments, but not that pointers are valid and not null, and that its outputs overlap
//! nothing else that is passed: the C program must ensure this.
#![tactic(auto)]

mod broken;
mod changes;
mod hashing;
mod kinds;
mod log_lines;
mod repairing;
mod report_lines;
mod results;
mod sectors;
mod short_texts;
mod state;
mod surveying;
mod texts;
mod version;
