// Union: all of both sides.
ghost use Rattle.std.specs.Prelude.{◌≡◌};
ghost use Rattle.theory.specs.Steps.{emit_union};
ghost use Rattle.rules.specs.Wanted.{either_of};

use defs::Prefix;
use theory::{Cover, Item, Value};
use view::Bitmaps;

// A place is worth a visit where either side has its bit.
pub fn wanted(l: Bitmaps, r: Bitmaps) -> Bitmaps
    ensures { result ≡ either_of l r }
{
    Bitmaps {
        data: l.data | r.data,
        child: l.child | r.child,
    }
}

// The item of a prefix, by its values on the two sides and the covers that a one-sided item gets.
pub fn item(q: Prefix, a: Value, b: Value, left: Cover, right: Cover) -> Option<Item>
    ensures { result ≡ emit_union q a b left right }
{
    match (a, b) {
        (None, None) => None,
        (None, Some(value)) => Some(Item::Right {
            prefix: q,
            value,
            cover: left,
        }),
        (Some(value), None) => Some(Item::Left {
            prefix: q,
            value,
            cover: right,
        }),
        (Some(x), Some(y)) => Some(Item::Both {
            prefix: q,
            left: x,
            right: y,
        }),
    }
}
