// A record: the words of an item, written at the front of the part of the output that is left.
ghost use Rattle.std.specs.Prelude.{◌≡◌, ◌∷◌, ◌++◌, ◌≤◌, length, drop};
ghost use Rattle.defs.specs.Lists.{words_of, record_words};
ghost use Rattle.theory.specs.Steps.{item_record, value_for, len_for};
ghost use Rattle.rules.specs.Records.{moved, front_of};

use defs::Prefix;
use theory::{Cover, Item};

// The value and the length of a cover, or the marks of a missing one: a cover of length 0 is a cover.
fn cover_words(c: Cover) -> (u64, u64)
    ensures value { result.0 ≡ value_for c }
    ensures length { result.1 ≡ len_for c }
{
    match c {
        None => (defs::missing_value(), defs::missing_cover()),
        Some(above) => (u64::from(above.value), u64::from(above.len)),
    }
}

// The words of a record at the front of a buffer: key, length, the mark of its sides, both values, and the cover's length. Six stores: a copy of an array was tried, and made a union a fiftieth slower.
fn put_words(out: &mut [u64], p: Prefix, sides: u64, left: u64, right: u64, cover: u64)
    requires { record_words ≤ length out.old }
    ensures { out.new ≡ p.key ∷ p.len ∷ sides ∷ left ∷ right ∷ cover ∷ drop record_words out.old }
{
    out[0] = p.key;
    out[1] = p.len as u64;
    out[2] = sides;
    out[3] = left;
    out[4] = right;
    out[5] = cover;
}

// The words of an item; the mark of its sides is a word of the output, and so a number. A cover's value stands in the other side's value word.
fn put(out: &mut [u64], i: Item)
    requires { record_words ≤ length out.old }
    ensures { out.new ≡ words_of (item_record i) ++ drop record_words out.old }
{
    match i {
        Item::Left {
            prefix,
            value,
            cover,
        } => {
            let (above, length) = cover_words(cover);
            put_words(out, prefix, 1, u64::from(value), above, length)
        }
        Item::Right {
            prefix,
            value,
            cover,
        } => {
            let (above, length) = cover_words(cover);
            put_words(out, prefix, 2, above, u64::from(value), length)
        }
        Item::Both {
            prefix,
            left,
            right,
        } => put_words(
            out,
            prefix,
            3,
            left as u64,
            right as u64,
            defs::missing_cover(),
        ),
    }
}

// The words of an item where they are asked for; how far the output has moved on. A flag beside the buffer, as in the walk, and no Option of it:
// what that leaves behind, no clause says readably.
pub fn put_if(writes: bool, out: &mut [u64], i: Item) -> usize
    requires { moved writes ≤ length out.old }
    ensures { (result ≡ moved writes) × (out.new ≡ front_of writes (item_record i) out.old) }
{
    if !writes {
        return 0;
    }
    put(out, i);
    defs::record_words()
}
