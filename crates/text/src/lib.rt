// Reading and writing of the text program, on slices. What is right is said in specs/.
#![tactic(auto)]

ghost use Rattle.std.specs.Prelude.{◌≡◌};
ghost use Rattle.text.specs.Input.{line_number};

mod digits;
pub mod input;
mod lines;
pub mod output;

use defs::{Operation, Prefix};

// What line O asks for: one of the five lists, or key equality.
#[derive(Clone, Copy)]
pub enum Call {
    Listing(Operation),
    Equality,
}

// Line l or r: the data bitmap and the child bitmap.
#[derive(Clone, Copy)]
pub struct Node {
    pub data_bits: u32,
    pub child_bits: u32,
}

// The four lines at the top: width, operation and the two roots.
#[derive(Clone, Copy)]
pub struct Head {
    pub width: u32,
    pub call: Call,
    pub left: Prefix,
    pub right: Prefix,
}

// The node lines of one side: how many words they make, a number as in `Said`, and what follows them.
#[derive(Clone, Copy)]
pub struct Part<'a> {
    pub words: usize,
    pub rest: &'a [u8],
}

// What a good input says: its top, and how many words of the lent buffers are the left and the right pool.
// Numbers and no slices: `read` says what both whole buffers hold afterwards, and a buffer that its result borrows has no such clause.
#[derive(Clone, Copy)]
pub struct Said {
    pub head: Head,
    pub left: usize,
    pub right: usize,
}

// Why an input is refused: it is too long, or a line, counted from 1, is bad or missing.
#[derive(Clone, Copy, Debug, PartialEq, Eq)]
pub enum BadInput {
    TooLong,
    Line(u64),
}

impl BadInput {
    // The number that the E line shows.
    pub fn line_number(self) -> u64
        ensures { result ≡ line_number self }
    {
        match self {
            BadInput::TooLong => 0,
            BadInput::Line(k) => k,
        }
    }
}
