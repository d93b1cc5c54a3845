// Numbers as digits: reading and spelling them.
ghost use Rattle.std.specs.Prelude.{◌≡◌, ◌+◌, ◌*◌, ◌<◌, ◌≤◌, length, take};
ghost use Rattle.text.specs.Numbers.{digit_of, behind, numeral_of, at_most, decimal_of, hex_of, glyph_of, digits, places_of};

// The value of a digit 0 to 9 or a to f.
fn digit(c: u8) -> Option<u64>
    ensures { result ≡ digit_of c }
{
    match c {
        b'0'..=b'9' => Some((c - b'0') as u64),
        b'a'..=b'f' => Some((c - b'a' + 10) as u64),
        _ => None,
    }
}

// n * base + d, where it is no larger than `most`.
fn shifted(n: u64, d: u64, base: u64, most: u64) -> Option<u64>
    ensures { result ≡ at_most most (Some (n * base + d)) }
{
    let m = n.checked_mul(base)?.checked_add(d)?;
    if m <= most { Some(m) } else { None }
}

// The number n with one more digit behind it.
fn more(n: u64, c: u8, base: u64, most: u64) -> Option<u64>
    ensures { result ≡ at_most most (behind base n (digit_of c)) }
{
    let d = digit(c)?;
    if d < base {
        shifted(n, d, base, most)
    } else {
        None
    }
}

// The number that the digits make, where it is no larger than `most`.
fn numeral(s: &[u8], base: u64, most: u64) -> Option<u64>
    requires { 0 < base }
    ensures { result ≡ at_most most (numeral_of base 0 s.now) }
{
    let mut n = 0;
    for c in s {
        n = more(n, *c, base, most)?;
    }
    Some(n)
}

// A decimal number without leading zeros, at most 255.
pub(crate) fn decimal(s: &[u8]) -> Option<u32>
    ensures { result ≡ decimal_of s.now }
{
    match s {
        [] | [b'0', _, ..] => None,
        _ => Some(numeral(s, 10, 255)? as u32),
    }
}

// So many lowercase hex digits, at most 16, whose number fits 64 bits.
pub(crate) fn hex(s: &[u8], count: usize) -> Option<u64>
    requires { count ≤ 16 }
    ensures { result ≡ hex_of count s.now }
{
    if s.len() == count {
        numeral(s, 16, u64::MAX)
    } else {
        None
    }
}

// A word of 8 lowercase hex digits.
pub(crate) fn bitmap(s: &[u8]) -> Option<u32>
    ensures { result ≡ hex_of 8 s.now }
{
    Some(hex(s, 8)? as u32)
}

// A digit below 16 as a byte.
fn glyph(d: u64) -> u8
    requires { d < 16 }
    ensures { result ≡ glyph_of d }
{
    if d < 10 {
        b'0' + d as u8
    } else {
        b'a' + (d - 10) as u8
    }
}

// How many decimal digits n has.
pub(crate) fn places(n: u64) -> usize
    ensures { (result ≡ places_of n) × (result ≤ 20) }
{
    match n.checked_ilog10() {
        Some(k) => k as usize + 1,
        None => 1,
    }
}

// Puts the last k digits of n at the front of a buffer, the last one first, for both bases: `write!` would want a writer over the buffer beside it.
pub(crate) fn spell(n: u64, base: u64, k: usize, out: &mut [u8])
    requires { (0 < base) × (base ≤ 16) × (k ≤ length out.old) }
    ensures { take k out.new ≡ digits base k n }
{
    let mut left = n;
    for i in (0..k).rev() {
        out[i] = glyph(left % base);
        left /= base;
    }
}
