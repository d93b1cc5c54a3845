// Intersection: the prefixes in both.
ghost use Rattle.std.specs.Prelude.{◌≡◌};
ghost use Rattle.theory.specs.Steps.{emit_both};
ghost use Rattle.rules.specs.Wanted.{both_of};

use defs::Prefix;
use theory::{Item, Value};
use view::Bitmaps;

// A place is worth a visit where both sides have its bit.
pub fn wanted(l: Bitmaps, r: Bitmaps) -> Bitmaps
    ensures { result ≡ both_of l r }
{
    Bitmaps {
        data: l.data & r.data,
        child: l.child & r.child,
    }
}

// The item of a prefix that has a value on both sides.
pub fn item(q: Prefix, a: Value, b: Value) -> Option<Item>
    ensures { result ≡ emit_both q a b }
{
    match (a, b) {
        (Some(left), Some(right)) => Some(Item::Both {
            prefix: q,
            left,
            right,
        }),
        _ => None,
    }
}
