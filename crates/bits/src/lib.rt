// Leaves on words and prefixes: masks, first bits, the common length, bits and ranks, and the 63 places of a node.
#![tactic(auto)]

ghost use Rattle.std.specs.Prelude.{◌≡◌, ◌≤◌, ◌+◌, ◌%◌, ◌^◌};
ghost use Rattle.defs.specs.Prefix.{first, leads, before};
ghost use Rattle.defs.specs.Pool.{bit, rank, ones};
ghost use Rattle.defs.specs.PrefixLaws.{cut};
ghost use Rattle.bits.specs.Words.{mask_of, common_len};
ghost use Rattle.bits.specs.Places.{place_len, place_value, place_number, place_prefix};
ghost use Rattle.bits.specs.SetBits.{next_bit};
ghost use Rattle.std.specs.Iterator.{at_most};

use defs::Prefix;

// The word whose first len bits are 1. What is taken off is shifted by less than 64, so length 0 needs no case of its own.
fn mask(len: u32) -> u64
    ensures { result ≡ mask_of len }
{
    if len < 64 {
        !(u64::MAX >> len)
    } else {
        u64::MAX
    }
}

// A key with the bits past its first len cleared, as a root's are before it is used.
pub fn first_bits(key: u64, len: u32) -> u64
    ensures { result ≡ cut len key }
{
    key & mask(len)
}

// p leads q. Bits past p's length play no part on either side.
pub fn leads(p: Prefix, q: Prefix) -> bool
    ensures { result ≡ leads p q }
{
    p.len <= q.len && first_bits(q.key, p.len) == first_bits(p.key, p.len)
}

// p comes before q: the key decides, and the length only where the keys are equal.
pub fn before(p: Prefix, q: Prefix) -> bool
    ensures { result ≡ before p q }
{
    p < q
}

// The 5 bits of a key that follow its first depth, which name a node's child there.
pub fn next_five(key: u64, depth: u32) -> u32
    requires { depth ≤ 59 }
    ensures { result ≡ first (depth + 5) key % 2 ^ 5 }
{
    ((key >> (59 - depth)) % 32) as u32
}

// The number of first bits that p and q share: the leading zeros of where their keys differ, up to both lengths.
pub fn common_len(p: Prefix, q: Prefix) -> u32
    ensures { result ≡ common_len p q }
{
    let shared = (p.key ^ q.key).leading_zeros();
    shared.min(p.len).min(q.len)
}

// Bit b of a word is set; there is none from 32 on.
pub fn bit(word: u32, b: u32) -> bool
    ensures { result ≡ bit b word }
{
    b < 32 && (word >> b) % 2 == 1
}

// The ones of a word below bit b: the remainder keeps just those.
pub fn rank(word: u32, b: u32) -> u32
    ensures { result ≡ rank b word }
{
    if b < 32 {
        (word % (1 << b)).count_ones()
    } else {
        word.count_ones()
    }
}

// All ones of a word.
pub fn ones(word: u32) -> u32
    ensures { result ≡ ones word }
{
    word.count_ones()
}

// The numbers of a word's set bits, lowest first.
#[derive(Drop)]
pub struct SetBits {
    left: u64,
}

// The set bits of a word: a `for` over them costs a turn for each, and none for the others.
pub fn set_bits(word: u64) -> SetBits
    ensures { result.left ≡ word }
{
    SetBits { left: word }
}

impl Iterator for SetBits {
    type Item = u32;

    ghost next_gives = { λ s out t. next_bit s.left out t.left };

    ghost remaining = { λ s. at_most s.left };

    fn next(&mut self) -> Option<u32> {
        if self.left == 0 {
            return None;
        }
        let z = self.left.trailing_zeros();
        self.left -= 1 << z;
        Some(z)
    }
}

// The bits that place h adds to its node's prefix: where its number's highest one stands.
pub fn place_len(h: u32) -> u32
    ensures { result ≡ place_len h }
{
    h.checked_ilog2().unwrap_or(0)
}

// The value of the bits that place h adds: its number without the highest one.
fn place_value(h: u32) -> u32
    ensures { result ≡ place_value h }
{
    h.saturating_sub(1 << place_len(h))
}

// The number of the place that adds n bits of value v, or 0 where a node has none.
// It stays a number, not an Option: a public function that could not fail still cannot, and place_number is one.
pub fn place_number(n: u32, v: u32) -> u32
    ensures { result ≡ place_number n v }
{
    if n < 6 && v < 1 << n { (1 << n) + v } else { 0 }
}

// The prefix of place h of a node at p. It adds no bits at place 1, so that a root of length 0 is not shifted by 64.
pub fn place_prefix(p: Prefix, h: u32) -> Prefix
    ensures { result ≡ place_prefix p h }
{
    let n = place_len(h);
    if n == 0 || 64 < p.len || 64 - p.len < n {
        return p;
    }
    let len = p.len + n;
    let low = u64::from(place_value(h)) << (64 - len);
    Prefix {
        key: p.key.wrapping_add(low),
        len,
    }
}
