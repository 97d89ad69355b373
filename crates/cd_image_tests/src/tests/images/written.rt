//! Compares bytes that were written to memory with the expected bytes.

/// The value of each byte of memory before something is written to it.
pub const UNTOUCHED: u8 = 238;

/// The bytes in memory that was filled with `UNTOUCHED`, compared with the expected bytes: they should be a prefix of these.
#[derive(Clone, Copy, Debug, PartialEq, Eq)]
pub struct Written {
    /// The number of bytes that were written.
    pub count: usize,
    /// The index of the first of them that is wrong.
    pub wrong_at: Option<usize>,
    /// Whether nothing was written to the memory after them.
    pub rest_untouched: bool,
}

impl Written {
    /// This number of bytes, all of them correct.
    pub fn right(count: usize) -> Self {
        Written {
            count,
            wrong_at: None,
            rest_untouched: true,
        }
    }
}

/// Compares memory to which `count` bytes were written with the expected bytes.
pub fn written_in(space: &[u8], count: usize, whole: &[u8]) -> Written {
    let front = space.get(..count).unwrap_or(&[]);
    let rest = space.get(count..).unwrap_or(&[]);
    Written {
        count,
        wrong_at: first_wrong(front, whole),
        rest_untouched: rest.iter().all(|byte| *byte == UNTOUCHED),
    }
}

/// The first index at which bytes are not the expected ones, or are too many.
fn first_wrong(front: &[u8], whole: &[u8]) -> Option<usize> {
    if whole.get(..front.len()) == Some(front) {
        return None;
    }
    let place = front
        .iter()
        .zip(whole)
        .position(|(byte, right)| byte != right);
    Some(place.unwrap_or(whole.len()))
}
