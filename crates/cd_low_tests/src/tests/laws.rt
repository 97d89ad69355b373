//! The laws of codes, sectors, scripts and patches, as a caller uses them.

use cd_code::{edc_is_unique, edc_of_sum, pair_is_unique, product_goes_by_bits, sum_goes_by_bits};
use cd_delta::one_diagonal;
use cd_patch::{
    hand_sequence_is_run, hand_stands_for_image, leaves_one, never_damaged, nothing_to_carry,
    sequence_exists, sequence_is_determined, sequence_leaves_others, sequences_agree,
};
use cd_script::{
    first_stays, limits_agree, order_keeps_ties, order_permutes, order_rises, reads_by_line,
    second_extends, spelling_reads,
};
use cd_sector::{
    carried_exists, carried_is_unique, carried_of_consistent, consistent_by_parts,
    consistent_is_carried, sector_by_defect, sector_exists, sector_is_unique,
};

#[test]
fn of_codes() {
    sum_goes_by_bits();
    product_goes_by_bits();
    pair_is_unique();
    edc_is_unique();
    edc_of_sum();
    one_diagonal();
}

#[test]
fn of_sectors() {
    consistent_by_parts();
    sector_is_unique();
    sector_exists();
    sector_by_defect();
    carried_is_unique();
    carried_exists();
    carried_of_consistent();
    consistent_is_carried();
}

#[test]
fn of_scripts() {
    limits_agree();
    order_rises();
    order_keeps_ties();
    order_permutes();
    spelling_reads();
    first_stays();
    second_extends();
    reads_by_line();
}

#[test]
fn of_patches() {
    hand_stands_for_image();
    hand_sequence_is_run();
    leaves_one();
    never_damaged();
    nothing_to_carry();
    sequence_exists();
    sequence_is_determined();
    sequence_leaves_others();
    sequences_agree();
}
