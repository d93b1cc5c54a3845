// Difference: the prefixes of the left side that are not in the right.
ghost use Rattle.std.specs.Prelude.{◌≡◌};
ghost use Rattle.theory.specs.Steps.{emit_left};

use defs::Prefix;
use theory::{Item, Value};
use view::Bitmaps;

// A place is worth a visit where the left side has its bit.
pub fn wanted(l: Bitmaps) -> Bitmaps
    ensures { result ≡ l }
{
    l
}

// The item of a prefix that has a value on the left side alone.
pub fn item(q: Prefix, a: Value, b: Value) -> Option<Item>
    ensures { result ≡ emit_left q a b }
{
    match (a, b) {
        (Some(value), None) => Some(Item::Left {
            prefix: q,
            value,
            cover: None,
        }),
        _ => None,
    }
}
