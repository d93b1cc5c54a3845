// One side of a walk at a node: its bitmaps, its values and children, the nearest entry above a place, and the way down to a root.
#![tactic(auto)]

ghost use Rattle.std.specs.Prelude.{◌≡◌, true, false, ◌+◌, ◌*◌, ◌/◌, ◌%◌, ◌^◌, ◌≤◌, ◌<◌, Some, length};
ghost use Rattle.defs.specs.Basics.{up_to};
ghost use Rattle.defs.specs.Pool.{node_count};
ghost use Rattle.defs.specs.Prefix.{deeper};
ghost use Rattle.defs.specs.Entries.{places, view};
ghost use Rattle.defs.specs.Tidy.{word_of};
ghost use Rattle.defs.specs.PrefixLaws.{Whole};
ghost use Rattle.bits.specs.Places.{place_len, place_value};
ghost use Rattle.theory.specs.Sides.{on_path, child_in, value_in};
ghost use Rattle.theory.specs.Steps.{place_bit, cover_bits};
ghost use Rattle.view.specs.Standing.{NodeIn, bitmaps_of, value_on};
ghost use Rattle.view.specs.Numbers.{number_of, place_at};
ghost use Rattle.view.specs.Spreads.{one, alone_of};
ghost use Rattle.view.specs.Descent.{cut_to, down_of, node_down, found_of};
ghost use Rattle.view.specs.Covered.{words_of, coverage_of, join_of};
ghost use Rattle.view.specs.Kept.{kept_bit, kept_of};
ghost use Rattle.view.specs.Emptiness.{is_nil, empty_at};
ghost use Rattle.view.specs.Seen.{seen};
ghost use Rattle.view.specs.EmptyViews.{Ending, empty_kid, empty_under};

use defs::Prefix;
use theory::{Above, Cover, Node, Value};

mod side;

pub use side::Side;

// The data bitmap and the child bitmap of a node.
#[derive(Clone, Copy)]
pub struct Bitmaps {
    pub data: u32,
    pub child: u32,
}

// The numbers of a node's places, in prefix order.
const IN_ORDER: [u8; 63] = [
    1, 2, 4, 8, 16, 32, 33, 17, 34, 35, 9, 18, 36, 37, 19, 38, 39, 5, 10, 20, 40, 41, 21, 42, 43,
    11, 22, 44, 45, 23, 46, 47, 3, 6, 12, 24, 48, 49, 25, 50, 51, 13, 26, 52, 53, 27, 54, 55, 7,
    14, 28, 56, 57, 29, 58, 59, 15, 30, 60, 61, 31, 62, 63,
];

// The number of the z-th place in prefix order. It and `position` look up different tables, one word each.
pub fn place_at(z: u32) -> u32
    requires { z < 63 }
    ensures { result ≡ number_of (place_at z) }
{
    u32::from(IN_ORDER[z as usize])
}

// The two bitmaps of a side's node. Where there is none, no bit is set.
pub fn bitmaps_at(words: &[u32], node: Node) -> Bitmaps
    requires { NodeIn words.now node }
    ensures { result ≡ bitmaps_of words.now node }
{
    match node {
        None => Bitmaps { data: 0, child: 0 },
        Some(i) => Bitmaps {
            data: pool::data_bits(words, i as usize),
            child: pool::child_bits(words, i as usize),
        },
    }
}

// Where the place of each bit of a node stands in prefix order: its 31 data bits, then its 32 child bits.
const POSITIONS: [u8; 63] = [
    0, 1, 32, 2, 17, 33, 48, 3, 10, 18, 25, 34, 41, 49, 56, 4, 7, 11, 14, 19, 22, 26, 29, 35, 38,
    42, 45, 50, 53, 57, 60, 5, 6, 8, 9, 12, 13, 15, 16, 20, 21, 23, 24, 27, 28, 30, 31, 36, 37, 39,
    40, 43, 44, 46, 47, 51, 52, 54, 55, 58, 59, 61, 62,
];

// Where the place of bit z of a node stands in prefix order.
fn position(z: u32) -> u32
    requires { z < 63 }
    ensures { (result < 63) × (2 ^ result ≡ alone_of z) }
{
    u32::from(POSITIONS[z as usize])
}

// A node's bits in prefix order, one a place. Only bits that are set cost a turn; data bit 31 stands for no place.
pub fn spread(b: Bitmaps) -> u64
    ensures { result ≡ word_of (place_bit b.data b.child) places }
{
    let both = (u64::from(b.child) << 31) + u64::from(b.data % 2147483648);
    let mut word: u64 = 0;
    for z in bits::set_bits(both) {
        word += 1 << position(z);
    }
    word
}

// One of two prefixes leads the other.
fn on_path(root: Prefix, q: Prefix) -> bool
    ensures { result ≡ on_path root q }
{
    bits::leads(root, q) || bits::leads(q, root)
}

// The first bits of a prefix.
pub fn shortened(p: Prefix, len: u32) -> Prefix
    ensures { result ≡ cut_to p len }
{
    Prefix {
        key: bits::first_bits(p.key, len),
        len,
    }
}

// Data bit b of a node of prefix p is set, and the root leads its place.
fn keeps(held: u32, root: Prefix, p: Prefix, b: u32) -> bool
    requires { (b < 31) × Whole p × (p.len ≤ 60) }
    ensures { result ≡ kept_bit held root p b }
{
    bits::bit(held, b) && bits::leads(root, bits::place_prefix(p, b + 1))
}

// A word with bit b set where that is wanted.
pub fn with_bit(word: u32, b: u32, on: bool) -> u32
    requires { (b < 32) × (word < 2 ^ b) }
    ensures { result ≡ word + one on * 2 ^ b }
{
    if on { word + (1 << b) } else { word }
}

// The set data bits of a node of prefix p whose places the root leads, place by place.
fn kept_places(held: u32, root: Prefix, p: Prefix) -> u32
    requires { Whole p × (p.len ≤ 60) }
    ensures { result ≡ word_of (kept_bit held root p) (up_to 31) }
{
    let mut kept: u32 = 0;
    for b in 0..31 {
        kept = with_bit(kept, b, keeps(held, root, p, b));
    }
    kept
}

// The place of a root: its node, that node's prefix, and the root without stray bits.
#[derive(Clone, Copy)]
struct RootPlace {
    node: u32,
    prefix: Prefix,
    root: Prefix,
}

impl<'a> Side<'a> {
    // The value of data bit b of node i, where it is set and the root leads the place's prefix q.
    fn held_value(self, i: usize, b: u32, q: Prefix) -> Value
        requires { (i < node_count self.words.now) × (b < 31) }
        ensures { result ≡ value_on self.entry.words.now self.entry.root i b q }
    {
        let held = pool::data_bits(self.words, i);
        if !bits::bit(held, b) {
            return None;
        }
        if !bits::leads(self.root, q) {
            return None;
        }
        Some(pool::first_value(self.words, i) + bits::rank(held, b))
    }

    // The value at place h of a side's node, of prefix q: values are counted by the data bits below the place's own.
    pub fn value_at(self, node: Node, h: u32, q: Prefix) -> Value
        requires { NodeIn self.words.now node × (0 < h) × (h < 32) }
        ensures { result ≡ value_in self.entry.words.now self.entry.root node (place_len h) (place_value h) q }
    {
        self.held_value(node? as usize, h - 1, q)
    }

    // Child c of node i, where its bit is set and its prefix q lies on one path with the root.
    fn held_child(self, i: usize, c: u32, q: Prefix) -> Node
        requires { (i < node_count self.words.now) × (c < 32) }
        ensures { result ≡ child_in self.entry.words.now self.entry.root (Some i) c q }
    {
        let held = pool::child_bits(self.words, i);
        if !bits::bit(held, c) {
            return None;
        }
        if !on_path(self.root, q) {
            return None;
        }
        Some(pool::first_child(self.words, i) + bits::rank(held, c))
    }

    // Child c of a side's node, of prefix q. A child that cannot hold anything of the view is left out.
    pub fn child_at(self, node: Node, c: u32, q: Prefix) -> Node
        requires { NodeIn self.words.now node × (c < 32) }
        ensures { result ≡ child_in self.entry.words.now self.entry.root node c q }
    {
        self.held_child(node? as usize, c, q)
    }

    // The nearest entry above place h of node i, of prefix p, or else what stands above the node. Each turn goes to the place above, whose number is half: no range goes so.
    fn climbed(self, i: u32, p: Prefix, above: Cover, h: u32) -> Cover
        requires { (i < node_count self.words.now) × (0 < h) × (h < 64) × Whole p × (p.len ≤ 60) }
        ensures { result ≡ cover_bits (seen self.entry) (Some i) p above (place_len h) (place_value h) }
    {
        let held = pool::data_bits(self.words, i as usize);
        let mut up = h;
        while 1 < up {
            up = up / 2;
            if bits::bit(held, up - 1) {
                let q = bits::place_prefix(p, up);
                if let Some(value) = self.held_value(i as usize, up - 1, q) {
                    return Some(Above {
                        len: p.len + bits::place_len(up),
                        value,
                    });
                }
            }
        }
        above
    }

    // The nearest entry of a side above place h of its node of prefix p, or else what stands above the node.
    pub fn cover_at(self, node: Node, p: Prefix, above: Cover, h: u32) -> Cover
        requires { NodeIn self.words.now node × (0 < h) × (h < 64) × Whole p × (p.len ≤ 60) }
        ensures { result ≡ cover_bits (seen self.entry) node p above (place_len h) (place_value h) }
    {
        match node {
            None => above,
            Some(i) => self.climbed(i, p, above, h),
        }
    }

    // The child on the way to the root, from the root's node at depth d: the root's next 5 bits are its place.
    fn next_down(self, node: Node, d: u32) -> Node
        requires { NodeIn self.words.now node × (d ≤ 59) }
        ensures { result ≡ down_of self.entry.words.now self.entry.root node d }
    {
        let c = bits::next_five(self.root.key, d);
        self.child_at(node, c, shortened(self.root, d + 5))
    }

    // The node on the way to the root at a depth, or none: one level down at a time.
    pub fn at_depth(self, depth: u32) -> Node
        requires { (depth % 5 ≡ 0) × (depth ≤ 60) }
        ensures { result ≡ node_down self.entry.words.now self.entry.root (depth / 5) }
    {
        let mut node = Some(0);
        for k in 0..depth / 5 {
            node = self.next_down(node, 5 * k);
        }
        node
    }

    // The place of a root, at depth len / 5 * 5; a root of length 64 lies in a node at depth 60.
    fn find(self) -> Option<RootPlace>
        requires { self.root.len ≤ 64 }
        ensures { result ≡ found_of self.entry.words.now self.entry.root }
    {
        let depth = self.root.len / 5 * 5;
        let node = self.at_depth(depth)?;
        Some(RootPlace {
            node,
            prefix: shortened(self.root, depth),
            root: shortened(self.root, self.root.len),
        })
    }

    // The data bitmap of a side's node of prefix p, as far as the root leads: all of it below the root, and place by place in the root's own node.
    pub fn kept_data(self, node: Node, p: Prefix) -> u32
        requires { NodeIn self.words.now node × Whole p × (p.len ≤ 60) }
        ensures { result ≡ kept_of self.entry.words.now self.entry.root node p }
    {
        let Some(i) = node else {
            return 0;
        };
        let held = pool::data_bits(self.words, i as usize);
        if bits::leads(self.root, p) {
            return held;
        }
        kept_places(held, self.root, p)
    }

    // Nothing lies in a node or below it, so many levels deep: it has no value, and each of its children is asked the same with one level less.
    fn node_is_empty(self, node: u32, levels: u32) -> bool
        requires { node < node_count self.words.now }
        ensures { result ≡ empty_at self.entry.words.now levels node }
    {
        if levels == 0 {
            return true;
        }
        if pool::data_bits(self.words, node as usize) != 0 {
            return false;
        }
        let first = pool::first_child(self.words, node as usize);
        let count = bits::ones(pool::child_bits(self.words, node as usize));
        for j in 0..count {
            if !self.node_is_empty(first + j, levels - 1) {
                return false;
            }
        }
        true
    }

    // Child c of a root's node holds nothing of the view. With no level left below, there is no child to ask.
    fn kid_is_empty(self, node: u32, p: Prefix, c: u32, levels: u32) -> bool
        requires { (node < node_count self.words.now) × Ending self.root p levels × (c < 32) }
        ensures { result ≡ empty_kid self.entry.words.now levels (child_in self.entry.words.now self.entry.root (Some node) c (deeper p 5 c)) }
    {
        if levels == 0 {
            return true;
        }
        match self.child_at(Some(node), c, bits::place_prefix(p, 32 + c)) {
            None => true,
            Some(k) => self.node_is_empty(k, levels),
        }
    }

    // Nothing of the view at a root lies in the root's node or below it: no value is kept, and no child holds anything.
    fn place_is_empty(self, node: u32, p: Prefix, levels: u32) -> bool
        requires { (node < node_count self.words.now) × Ending self.root p levels }
        ensures { result ≡ empty_under self.entry.words.now self.entry.root levels node p }
    {
        if self.kept_data(Some(node), p) != 0 {
            return false;
        }
        for c in 0..32 {
            if !self.kid_is_empty(node, p, c, levels) {
                return false;
            }
        }
        true
    }

    // The view at a root is empty.
    pub fn view_is_empty(self) -> bool
        requires { self.root.len ≤ 64 }
        ensures { result ≡ is_nil (view self.entry.words.now self.entry.root) }
    {
        let Some(place) = self.find() else {
            return true;
        };
        let clean = Side {
            words: self.words,
            root: place.root,
        };
        clean.place_is_empty(place.node, place.prefix, 12 - place.prefix.len / 5)
    }
}

// The places of a node that entries cover. No `Bitmaps`, though it looks alike: those say what is there, and one must not pass for the other.
#[derive(Clone, Copy)]
pub struct Coverage {
    pub data: u32,
    pub child: u32,
}

// What the entry of each data bit covers. A `static` and no `const`: each look-up in a constant table of structs lays all of it on the stack first.
static COVERED: [Coverage; 32] = [
    Coverage {
        data: 0x7fffffff,
        child: 0xffffffff,
    },
    Coverage {
        data: 0x007f879a,
        child: 0x0000ffff,
    },
    Coverage {
        data: 0x7f807864,
        child: 0xffff0000,
    },
    Coverage {
        data: 0x00078188,
        child: 0x000000ff,
    },
    Coverage {
        data: 0x00780610,
        child: 0x0000ff00,
    },
    Coverage {
        data: 0x07801820,
        child: 0x00ff0000,
    },
    Coverage {
        data: 0x78006040,
        child: 0xff000000,
    },
    Coverage {
        data: 0x00018080,
        child: 0x0000000f,
    },
    Coverage {
        data: 0x00060100,
        child: 0x000000f0,
    },
    Coverage {
        data: 0x00180200,
        child: 0x00000f00,
    },
    Coverage {
        data: 0x00600400,
        child: 0x0000f000,
    },
    Coverage {
        data: 0x01800800,
        child: 0x000f0000,
    },
    Coverage {
        data: 0x06001000,
        child: 0x00f00000,
    },
    Coverage {
        data: 0x18002000,
        child: 0x0f000000,
    },
    Coverage {
        data: 0x60004000,
        child: 0xf0000000,
    },
    Coverage {
        data: 0x00008000,
        child: 0x00000003,
    },
    Coverage {
        data: 0x00010000,
        child: 0x0000000c,
    },
    Coverage {
        data: 0x00020000,
        child: 0x00000030,
    },
    Coverage {
        data: 0x00040000,
        child: 0x000000c0,
    },
    Coverage {
        data: 0x00080000,
        child: 0x00000300,
    },
    Coverage {
        data: 0x00100000,
        child: 0x00000c00,
    },
    Coverage {
        data: 0x00200000,
        child: 0x00003000,
    },
    Coverage {
        data: 0x00400000,
        child: 0x0000c000,
    },
    Coverage {
        data: 0x00800000,
        child: 0x00030000,
    },
    Coverage {
        data: 0x01000000,
        child: 0x000c0000,
    },
    Coverage {
        data: 0x02000000,
        child: 0x00300000,
    },
    Coverage {
        data: 0x04000000,
        child: 0x00c00000,
    },
    Coverage {
        data: 0x08000000,
        child: 0x03000000,
    },
    Coverage {
        data: 0x10000000,
        child: 0x0c000000,
    },
    Coverage {
        data: 0x20000000,
        child: 0x30000000,
    },
    Coverage {
        data: 0x40000000,
        child: 0xc0000000,
    },
    Coverage {
        data: 0x00000000,
        child: 0x00000000,
    },
];

impl Coverage {
    pub const NOTHING: Coverage = Coverage { data: 0, child: 0 };

    pub const ALL: Coverage = Coverage {
        data: 2147483647,
        child: 4294967295,
    };

    // No place is covered.
    pub fn nothing() -> Coverage
        ensures { result ≡ words_of (λ _. false) }
    {
        Coverage::NOTHING
    }

    // Every place is covered.
    pub fn all() -> Coverage
        ensures { result ≡ words_of (λ _. true) }
    {
        Coverage::ALL
    }

    // What one or the other covers.
    fn with(self, other: Coverage) -> Coverage
        ensures { result ≡ join_of self other }
    {
        Coverage {
            data: self.data | other.data,
            child: self.child | other.child,
        }
    }

    // What the entry of data bit z covers: its own place and all below it. Bit 31 stands for no place.
    fn of_bit(z: u32) -> Coverage
        requires { z < 32 }
        ensures { result ≡ coverage_of (2 ^ z) }
    {
        COVERED[z as usize]
    }

    // What the entries of a data bitmap cover, entry by entry.
    pub fn from_data(entries: u32) -> Coverage
        ensures { result ≡ coverage_of entries }
    {
        let mut covered = Coverage::NOTHING;
        for z in bits::set_bits(u64::from(entries)) {
            covered = covered.with(Coverage::of_bit(z));
        }
        covered
    }
}
