// The static library for C and Rust: each export makes a call of lhamtrovi, a list the one of its operation, and has its contract.
#![tactic(auto)]

ghost use Rattle.std.specs.Prelude.{◌≡◌};
ghost use Rattle.defs.specs.declared.Operation.TheVariants.{Union, Intersection, Difference, CoveringDifference, CoveringUnion};
ghost use Rattle.defs.specs.Outcome.{check_outcome, list_outcome, equal_outcome, tidy_outcome};
ghost use Rattle.lhamtrovi.specs.Plain.{side};

use defs::{Answer, Operation};

// Whether a pool is well-formed, and its first fault.
#[unsafe(no_mangle)]
pub extern "C" fn lhamtrovi_check(width: u32, pool: &[u32]) -> Answer
    ensures { result ≡ check_outcome width pool.now }
{
    lhamtrovi::lhamtrovi_check(width, pool)
}

// The prefixes of either view. Each list has an export, and each side its words and numbers one by one: C calls them so.
#[unsafe(no_mangle)]
pub extern "C" fn lhamtrovi_union(
    width: u32,
    left: &[u32],
    left_key: u64,
    left_len: u32,
    right: &[u32],
    right_key: u64,
    right_len: u32,
    out: &mut [u64],
) -> Answer
    ensures { record { answer = result; output = out.new } ≡ list_outcome Union width (side left.now left_key left_len) (side right.now right_key right_len) out.old }
{
    lhamtrovi::lhamtrovi_list(
        Operation::Union,
        width,
        left,
        left_key,
        left_len,
        right,
        right_key,
        right_len,
        out,
    )
}

// The prefixes of both views.
#[unsafe(no_mangle)]
pub extern "C" fn lhamtrovi_intersection(
    width: u32,
    left: &[u32],
    left_key: u64,
    left_len: u32,
    right: &[u32],
    right_key: u64,
    right_len: u32,
    out: &mut [u64],
) -> Answer
    ensures { record { answer = result; output = out.new } ≡ list_outcome Intersection width (side left.now left_key left_len) (side right.now right_key right_len) out.old }
{
    lhamtrovi::lhamtrovi_list(
        Operation::Intersection,
        width,
        left,
        left_key,
        left_len,
        right,
        right_key,
        right_len,
        out,
    )
}

// The prefixes of the left view that are not in the right one.
#[unsafe(no_mangle)]
pub extern "C" fn lhamtrovi_difference(
    width: u32,
    left: &[u32],
    left_key: u64,
    left_len: u32,
    right: &[u32],
    right_key: u64,
    right_len: u32,
    out: &mut [u64],
) -> Answer
    ensures { record { answer = result; output = out.new } ≡ list_outcome Difference width (side left.now left_key left_len) (side right.now right_key right_len) out.old }
{
    lhamtrovi::lhamtrovi_list(
        Operation::Difference,
        width,
        left,
        left_key,
        left_len,
        right,
        right_key,
        right_len,
        out,
    )
}

// The prefixes of the left view that no prefix of the right one equals or leads.
#[unsafe(no_mangle)]
pub extern "C" fn lhamtrovi_covering_difference(
    width: u32,
    left: &[u32],
    left_key: u64,
    left_len: u32,
    right: &[u32],
    right_key: u64,
    right_len: u32,
    out: &mut [u64],
) -> Answer
    ensures { record { answer = result; output = out.new } ≡ list_outcome CoveringDifference width (side left.now left_key left_len) (side right.now right_key right_len) out.old }
{
    lhamtrovi::lhamtrovi_list(
        Operation::CoveringDifference,
        width,
        left,
        left_key,
        left_len,
        right,
        right_key,
        right_len,
        out,
    )
}

// The prefixes of either view, each with its cover in the other.
#[unsafe(no_mangle)]
pub extern "C" fn lhamtrovi_covering_union(
    width: u32,
    left: &[u32],
    left_key: u64,
    left_len: u32,
    right: &[u32],
    right_key: u64,
    right_len: u32,
    out: &mut [u64],
) -> Answer
    ensures { record { answer = result; output = out.new } ≡ list_outcome CoveringUnion width (side left.now left_key left_len) (side right.now right_key right_len) out.old }
{
    lhamtrovi::lhamtrovi_list(
        Operation::CoveringUnion,
        width,
        left,
        left_key,
        left_len,
        right,
        right_key,
        right_len,
        out,
    )
}

// Whether the two views have the same prefixes.
#[unsafe(no_mangle)]
pub extern "C" fn lhamtrovi_equal_keys(
    width: u32,
    left: &[u32],
    left_key: u64,
    left_len: u32,
    right: &[u32],
    right_key: u64,
    right_len: u32,
) -> Answer
    ensures { result ≡ equal_outcome width (side left.now left_key left_len) (side right.now right_key right_len) }
{
    lhamtrovi::lhamtrovi_equal_keys(width, left, left_key, left_len, right, right_key, right_len)
}

// The tidy pool of a view, and the old value index of each new one.
#[unsafe(no_mangle)]
pub extern "C" fn lhamtrovi_tidy(
    width: u32,
    pool: &[u32],
    key: u64,
    len: u32,
    out: &mut [u32],
    values: &mut [u32],
) -> Answer
    ensures { record { answer = result; output = out.new; values = values.new } ≡ tidy_outcome width (side pool.now key len) out.old values.old }
{
    lhamtrovi::lhamtrovi_tidy(width, pool, key, len, out, values)
}
