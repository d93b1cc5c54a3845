// The largest pool, one node more, and words that are no whole node: too long to store.
use defs::{Fault, PoolError};

// The words of 65,537 nodes.
type Words = [u32; 4 * 65537];

// The child bitmap and the first child of node i in a pool of 65,536 nodes without entries, in which the first 2,048 nodes have all children.
fn children(i: u32) -> [u32; 2] {
    match i {
        0..2047 => [u32::MAX, 1 + 32 * i],
        2047 => [0x7fff_ffff, 65505],
        _ => [0, 65536],
    }
}

// The first 65,536 nodes.
fn fill(words: &mut [u32]) {
    for (i, node) in (0..65536).zip(words.chunks_exact_mut(4)) {
        node[1..3].copy_from_slice(&children(i));
    }
}

// A fault of the pool as a whole.
fn faulty(fault: Fault) -> Result<usize, PoolError> {
    Err(PoolError::Fault { fault, node: 0 })
}

// The three pools at a width.
fn are_right(width: u32, words: &Words) -> bool {
    pool::check(width, &words[..4 * 65536]) == Ok(65536)
        && pool::check(width, words) == faulty(Fault::TooManyNodes)
        && pool::check(width, &words[..4 * 65537 - 1]) == faulty(Fault::NoWholeNodes)
}

// The pools come out right at both widths.
pub(crate) fn all_right() -> bool {
    let mut words: Words = [0; 4 * 65537];
    fill(&mut words);
    are_right(32, &words) && are_right(64, &words)
}
