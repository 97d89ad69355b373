//! Tests of everything that processes whole images: cd_image (`apply`, `check`), cd_report (`list`, `audit`), cd_read, cd_stream
//! (`streams`), and cd_program (`program`). Their shared code is in `images`.
//!
//! What a script does to an image, and the reports of it, are in the worked cases (`tests/cases`). Noise: `noise`. Failures at each byte: `failing`, `reports`. The largest images, and one without an end: `large`; readers that continue
//! after their end: `resumed`.
#![tactic(auto)]

#[cfg(test)]
mod tests;
