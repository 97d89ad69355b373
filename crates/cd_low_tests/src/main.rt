//! Tests of cd_code (`tests::codes`), cd_sector (`tests::sectors`), cd_delta (`tests::changes`), cd_repair (`tests::repairs`), and cd_script
//! (`tests::scripts`), and of the laws (`tests::laws`) of these crates and cd_patch.
//!
//! The program is also a test, because a program can read a file and a test cannot: it encodes the sectors of `data/cdrkit-8.bin` again
//! from their headers and user data, and prints for each whether all its bytes are those that independent encoders wrote.
#![tactic(auto)]

#[cfg(test)]
mod tests;

use cd_sector::{SECTOR_SIZE, Sector, encode};
use std::{fs, io};

fn main(rt: HostRuntime) -> io::Result<()> {
    let image = fs::read(&rt, "cdrkit-8.bin")?;
    let (sectors, tail) = image.as_slice().as_chunks::<SECTOR_SIZE>();
    for (number, bytes) in sectors.iter().enumerate() {
        let verdict = if is_encoded_alike(bytes) {
            "as"
        } else {
            "NOT as"
        };
        println!(rt; "sector {number}: byte for byte {verdict} cdrkit and libburn encoded it")?;
    }
    let (count, left) = (sectors.len(), tail.len());
    println!(rt; "sectors {count} tail {left}")
}

/// Whether encoding the header and the user data of a sector gives the same sector.
fn is_encoded_alike(bytes: &[u8; SECTOR_SIZE]) -> bool {
    let sector = Sector::from_bytes(*bytes);
    let [minute, second, fraction, _] = sector.header();
    let mut user = [0; 2048];
    user.copy_from_slice(sector.user());
    encode([minute, second, fraction], &user) == sector
}
