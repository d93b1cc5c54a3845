// The two sides of a call, with its refusals for them.
ghost use Rattle.std.specs.Prelude.{◌≡◌, ◌≤◌, IfOk, IfErr};
ghost use Rattle.defs.specs.Outcome.{first_of, side_rows};
ghost use Rattle.defs.specs.Refusals.{answer_for};
ghost use Rattle.sets.specs.Listing.{side_of, Opened};

use defs::{Prefix, Refusal};
use view::Side;

// The two sides of a call, in pools without faults.
#[derive(Clone, Copy)]
pub(crate) struct Sides<'a> {
    pub left: Side<'a>,
    pub right: Side<'a>,
}

impl<'a> Sides<'a> {
    // The sides of a call, or the first of the refusals 1 to 5: both pools before either root.
    pub(crate) fn checked(
        width: u32,
        left: &'a [u32],
        left_root: Prefix,
        right: &'a [u32],
        right_root: Prefix,
    ) -> Result<Sides<'a>, Refusal>
        ensures refused { IfErr result (λ refusal. answer_for refusal ≡ first_of (side_rows width (side_of left.entry.now left_root) (side_of right.entry.now right_root)) 0) }
        ensures opened { IfOk result (Opened width (side_of left.entry.now left_root) (side_of right.entry.now right_root)) }
    {
        if let Err(error) = pool::check(width, left) {
            return Err(error.on_left());
        }
        if let Err(error) = pool::check(width, right) {
            return Err(error.on_right());
        }
        if width < left_root.len {
            return Err(Refusal::LeftRoot);
        }
        if width < right_root.len {
            return Err(Refusal::RightRoot);
        }
        Ok(Sides {
            left: Side {
                words: left,
                root: left_root,
            },
            right: Side {
                words: right,
                root: right_root,
            },
        })
    }
}
