// The calls over plain words: each takes roots as key and length, and answers what the crate's own call answers. lhamtrovi_c exports them to C.
#![tactic(auto)]

ghost use Rattle.std.specs.Prelude.{◌≡◌};
ghost use Rattle.defs.specs.Outcome.{check_outcome, list_outcome, equal_outcome, tidy_outcome};
ghost use Rattle.lhamtrovi.specs.Plain.{side};

use defs::{Answer, Operation, Prefix};

// Whether a pool is well-formed, and its first fault.
pub fn lhamtrovi_check(width: u32, pool: &[u32]) -> Answer
    ensures { result ≡ check_outcome width pool.now }
{
    pool::check(width, pool).into()
}

// The list of an operation: D1 to D5. lhamtrovi_c has an export for each, which hands roots in as numbers.
pub fn lhamtrovi_list(
    op: Operation,
    width: u32,
    left: &[u32],
    left_key: u64,
    left_len: u32,
    right: &[u32],
    right_key: u64,
    right_len: u32,
    out: &mut [u64],
) -> Answer
    ensures { record { answer = result; output = out.new } ≡ list_outcome op width (side left.now left_key left_len) (side right.now right_key right_len) out.old }
{
    let l = Prefix {
        key: left_key,
        len: left_len,
    };
    let r = Prefix {
        key: right_key,
        len: right_len,
    };
    sets::list(op, width, left, l, right, r, out).into()
}

// D6: whether the two views have the same prefixes.
pub fn lhamtrovi_equal_keys(
    width: u32,
    left: &[u32],
    left_key: u64,
    left_len: u32,
    right: &[u32],
    right_key: u64,
    right_len: u32,
) -> Answer
    ensures { result ≡ equal_outcome width (side left.now left_key left_len) (side right.now right_key right_len) }
{
    let l = Prefix {
        key: left_key,
        len: left_len,
    };
    let r = Prefix {
        key: right_key,
        len: right_len,
    };
    sets::equality::equal_keys(width, left, l, right, r).into()
}

// D7: the tidy pool of a view, and the old value index of each new one.
pub fn lhamtrovi_tidy(
    width: u32,
    pool: &[u32],
    key: u64,
    len: u32,
    out: &mut [u32],
    values: &mut [u32],
) -> Answer
    ensures { record { answer = result; output = out.new; values = values.new } ≡ tidy_outcome width (side pool.now key len) out.old values.old }
{
    let root = Prefix { key, len };
    tidy::tidy(width, pool, root, out, values).into()
}
