// Lines: finding them, and reading each kind.
ghost use Rattle.std.specs.Prelude.{◌≡◌, ◌+◌, true, false, take, drop, MatchOption};
ghost use Rattle.text.specs.Bytes.{tab, is_at, line, rest};
ghost use Rattle.text.specs.Input.{starts, width_line, call_of, call_line, root_line, node_line};

use crate::digits::{bitmap, decimal, hex};
use crate::{Call, Node};
use defs::{Operation, Prefix};

// The first line, without its line feed, and what follows it; a line that none closes is read as an empty line.
pub(crate) fn split_line(input: &[u8]) -> (&[u8], &[u8])
    ensures first { result.0.now ≡ line input.now }
    ensures others { result.1.now ≡ rest input.now }
{
    match input.iter().position(|b| *b == b'\n') {
        Some(end) => (&input[..end], &input[end + 1..]),
        None => (&[], &[]),
    }
}

// What stands behind this letter and a tab, where the line starts so.
fn behind(line: &[u8], letter: u8) -> Option<&[u8]>
    ensures { MatchOption result (starts letter line.now ≡ false) (λ r. (starts letter line.now ≡ true) × (r.now ≡ drop 2 line.now)) }
{
    match line {
        [first, b'\t', fields @ ..] if *first == letter => Some(fields),
        _ => None,
    }
}

// Line W. No twin of line O, which looks alike: each is one line that hands its fields to a reader of another type.
pub(crate) fn width_line(line: &[u8]) -> Option<u32>
    ensures { result ≡ width_line line.now }
{
    decimal(behind(line, b'W')?)
}

// The operation of this name.
// Not a `match` on the names: the check takes it byte by byte, into eighty ways to have no name, and does not close them.
fn call(name: &[u8]) -> Option<Call>
    ensures { result ≡ call_of name.now }
{
    let operation = if name == b"union".as_slice() {
        Operation::Union
    } else if name == b"intersection".as_slice() {
        Operation::Intersection
    } else if name == b"difference".as_slice() {
        Operation::Difference
    } else if name == b"covering-difference".as_slice() {
        Operation::CoveringDifference
    } else if name == b"covering-union".as_slice() {
        Operation::CoveringUnion
    } else if name == b"equality".as_slice() {
        return Some(Call::Equality);
    } else {
        return None;
    };
    Some(Call::Listing(operation))
}

// Line O.
pub(crate) fn call_line(line: &[u8]) -> Option<Call>
    ensures { result ≡ call_line line.now }
{
    call(behind(line, b'O')?)
}

// Two fields with a tab between them, the first of so many bytes.
fn two_fields(s: &[u8], first: usize) -> Option<(&[u8], &[u8])>
    ensures { MatchOption result (is_at first tab s.now ≡ false) (λ p. (is_at first tab s.now ≡ true) × (p.0.now ≡ take first s.now) × (p.1.now ≡ drop (first + 1) s.now)) }
{
    match s.split_at_checked(first)? {
        (field, [b'\t', other @ ..]) => Some((field, other)),
        _ => None,
    }
}

// Line L or R.
pub(crate) fn root_line(line: &[u8], letter: u8) -> Option<Prefix>
    ensures { result ≡ root_line letter line.now }
{
    let (key, len) = two_fields(behind(line, letter)?, 16)?;
    Some(Prefix {
        key: hex(key, 16)?,
        len: decimal(len)?,
    })
}

// Line l or r.
pub(crate) fn node_line(line: &[u8], letter: u8) -> Option<Node>
    ensures { result ≡ node_line letter line.now }
{
    let (data_bits, child_bits) = two_fields(behind(line, letter)?, 8)?;
    Some(Node {
        data_bits: bitmap(data_bits)?,
        child_bits: bitmap(child_bits)?,
    })
}
