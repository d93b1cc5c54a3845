// Covering difference: where its walk starts. The right view is aligned with the left root.
ghost use Rattle.std.specs.Prelude.{◌≡◌, ◌%◌, ◌/◌, ◌≤◌, ◌<◌, Some};
ghost use Rattle.defs.specs.Lists.{records_of};
ghost use Rattle.defs.specs.Outcome.{entries_of};
ghost use Rattle.defs.specs.Pool.{node_count};
ghost use Rattle.defs.specs.declared.Operation.TheVariants.{CoveringDifference};
ghost use Rattle.theory.specs.Steps.{level_rest};
ghost use Rattle.view.specs.Seen.{seen};
ghost use Rattle.walk.specs.Ready.{Ready};
ghost use Rattle.sets.specs.Beginning.{empty_level};
ghost use Rattle.sets.specs.Aligned.{align_step, align_down, covering_job};

use defs::{Operation, Prefix};
use theory::{Level, Node};
use view::Side;
use walk::Job;

// One level down the path from a node of the right side at depth d: nothing where the path is covered there, and otherwise the child, or none.
fn down(right: Side<'_>, path: Prefix, node: u32, d: u32) -> Option<Node>
    requires { (node < node_count right.words.now) × (d ≤ 59) }
    ensures { result ≡ align_step (seen right.entry) path node d }
{
    let c = bits::next_five(path.key, d);
    if right
        .cover_at(Some(node), view::shortened(path, d), None, 32 + c)
        .is_some()
    {
        return None;
    }
    Some(right.child_at(Some(node), c, view::shortened(path, d + 5)))
}

// The right view on the way to the left root: down one level at a time, until the path is covered, a child is missing, or the depth is reached. A loop
// that breaks with each of the three, as docs/TRACE.md names the form, and no `for`.
fn align(right: Side<'_>, path: Prefix, depth: u32) -> Option<Node>
    requires { depth ≤ 60 }
    ensures { result ≡ align_down (seen right.entry) path (depth / 5) 0 (Some 0) }
{
    let mut node = 0;
    let mut level = 0;
    loop {
        if level == depth / 5 {
            break Some(Some(node));
        }
        match down(right, path, node, 5 * level) {
            None => break None,
            Some(None) => break Some(None),
            Some(Some(child)) => node = child,
        }
        level += 1;
    }
}

// A level that has nothing to give: where the right side covers the left root.
fn nothing(prefix: Prefix) -> Level
    ensures { result ≡ empty_level prefix }
{
    Level {
        prefix,
        left: None,
        right: None,
        above: walk::no_covers(),
        todo: 0,
    }
}

// The level at which the walk starts: the left root's node, with the right view aligned to it.
pub(crate) fn start(left: Side<'_>, right: Side<'_>) -> Level
    requires { (left.root.len ≤ 64) × (right.root.len ≤ 64) }
    ensures { Ready (covering_job (seen left.entry) (seen right.entry)) result
        × (records_of CoveringDifference (entries_of (seen left.entry)) (entries_of (seen right.entry)) ≡ level_rest (covering_job (seen left.entry) (seen right.entry)) result) }
{
    let depth = left.root.len / 5 * 5;
    let prefix = view::shortened(left.root, depth);
    let Some(aligned) = align(right, left.root, depth) else {
        return nothing(prefix);
    };
    let job = Job {
        op: Operation::CoveringDifference,
        left,
        right,
    };
    job.entered(prefix, left.at_depth(depth), aligned, walk::no_covers())
}
