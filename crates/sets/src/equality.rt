// Key equality: the same prefixes in both views, whatever their values.
ghost use Rattle.std.specs.Prelude.{◌≡◌, suc, ◌≤◌, ◌<◌};
ghost use Rattle.defs.specs.Lists.{same_keys};
ghost use Rattle.defs.specs.Outcome.{entries_of, equal_outcome};
ghost use Rattle.defs.specs.Refusals.{answer_whether};
ghost use Rattle.view.specs.Seen.{seen};
ghost use Rattle.sets.specs.Listing.{side_of};
ghost use Rattle.sets.specs.SameKeys.{equal_at};
ghost use Rattle.sets.specs.Equality.{Paired, child_equal};

use crate::sides::Sides;
use defs::{Prefix, Refusal};
use theory::Node;

impl<'a> Sides<'a> {
    // The children of a pair at place c hold the same prefixes. One that is there and empty is as one that is not there. With no level left below, there is none.
    // It and `pair_equal` call each other, so both sides come by reference: no frame holds a copy.
    #[cycle(child_equal_pair_equal)]
    fn child_equal(&self, p: Prefix, left: Node, right: Node, c: u32, levels: u32) -> bool
        requires { Paired (seen self.now.left) (seen self.now.right) p left right levels × (c < 32) }
        ensures { result ≡ child_equal (seen self.now.left) (seen self.now.right) levels left right p c }
    {
        if levels == 0 {
            return true;
        }
        let q = bits::place_prefix(p, 32 + c);
        let a = self.left.child_at(left, c, q);
        let b = self.right.child_at(right, c, q);
        self.pair_equal(q, a, b, levels - 1)
    }

    // Two nodes of prefix p hold the same prefixes: the same data bits are kept, and so do the children of each place where either has one.
    #[cycle(child_equal_pair_equal)]
    fn pair_equal(&self, p: Prefix, left: Node, right: Node, levels: u32) -> bool
        requires { Paired (seen self.now.left) (seen self.now.right) p left right levels }
        ensures { result ≡ equal_at (seen self.now.left) (seen self.now.right) (suc levels) left right p }
    {
        let a = self.left.kept_data(left, p);
        let b = self.right.kept_data(right, p);
        if a != b {
            return false;
        }
        let l = view::bitmaps_at(self.left.words, left);
        let r = view::bitmaps_at(self.right.words, right);
        let places = rules::union::wanted(l, r).child;
        for c in bits::set_bits(u64::from(places)) {
            if !self.child_equal(p, left, right, c, levels) {
                return false;
            }
        }
        true
    }

    // The views hold the same prefixes: both lie in the node pair at the depth of the roots' common length.
    fn views_equal(self) -> bool
        requires { (self.left.root.len ≤ 64) × (self.right.root.len ≤ 64) }
        ensures { result ≡ same_keys (entries_of (seen self.entry.left)) (entries_of (seen self.entry.right)) }
    {
        let depth = bits::common_len(self.left.root, self.right.root) / 5 * 5;
        let left = self.left.at_depth(depth);
        let right = self.right.at_depth(depth);
        let prefix = view::shortened(self.left.root, depth);
        self.pair_equal(prefix, left, right, 12 - depth / 5)
    }
}

// Whether two views hold the same prefixes, or a refusal. Public, as `list`, and over words that are no Side yet.
pub fn equal_keys(
    width: u32,
    left: &[u32],
    left_root: Prefix,
    right: &[u32],
    right_root: Prefix,
) -> Result<bool, Refusal>
    ensures { answer_whether result ≡ equal_outcome width (side_of left.now left_root) (side_of right.now right_root) }
{
    let both = Sides::checked(width, left, left_root, right, right_root)?;
    Ok(both.views_equal())
}
