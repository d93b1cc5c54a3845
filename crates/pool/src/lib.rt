// The words of a pool: a node's fields, and the check for faults.
#![tactic(auto)]

ghost use Rattle.std.specs.Prelude.{◌≡◌, ◌&&◌, ◌||◌, [], ◌∷◌, suc, ◌+◌, ◌-◌, ◌≤◌, ◌<◌, ◌^◌, min, leb, ltb, eqb};
ghost use Rattle.defs.specs.Basics.{if◌then◌otherwise◌};
ghost use Rattle.defs.specs.Pool.{node_count, data_of, child_of, first_child, first_value};
ghost use Rattle.defs.specs.Check.{pool_limit, usable, fault_from};
ghost use Rattle.defs.specs.Outcome.{check_outcome};
ghost use Rattle.defs.specs.Refusals.{checked};
ghost use Rattle.pool.specs.Counting.{Bounded, level_of, after_of, number_found, found_at, fault_answer};

use defs::{Fault, PoolError};

// The width is one that prefixes have.
fn known_width(width: u32) -> bool
    ensures { result ≡ (eqb width 32 || eqb width 64) }
{
    matches!(width, 32 | 64)
}

// Each word of a node has a function: one with the place as a const parameter would need these four names all the same.
// The data bitmap of node i.
pub fn data_bits(words: &[u32], i: usize) -> u32
    requires { i < node_count words.now }
    ensures { result ≡ data_of words.now i }
{
    words[4 * i]
}

// The child bitmap of node i.
pub fn child_bits(words: &[u32], i: usize) -> u32
    requires { i < node_count words.now }
    ensures { result ≡ child_of words.now i }
{
    words[4 * i + 1]
}

// The number of node i's first child.
pub fn first_child(words: &[u32], i: usize) -> u32
    requires { i < node_count words.now }
    ensures { result ≡ first_child words.now i }
{
    words[4 * i + 2]
}

// The index of node i's first value.
pub fn first_value(words: &[u32], i: usize) -> u32
    requires { i < node_count words.now }
    ensures { result ≡ first_value words.now i }
{
    words[4 * i + 3]
}

// How far the check has come. Nodes stand level by level, so the depths that are due are `here` times `depth`, then `next` times 5 more.
#[derive(Clone, Copy)]
struct Count {
    depth: u32,
    here: u32,
    next: u32,
    children: u32,
    values: u32,
}

impl Count {
    // Before the root, whose depth is the only one due.
    const START: Count = Count {
        depth: 0,
        here: 1,
        next: 0,
        children: 0,
        values: 0,
    };

    // Where no node of this level is left, the next level begins.
    fn at_level(self) -> Count
        requires { self.depth + 5 < 2 ^ 32 }
        ensures { result ≡ level_of self }
    {
        if 0 < self.here {
            return self;
        }
        Count {
            depth: self.depth + 5,
            here: self.next,
            next: 0,
            ..self
        }
    }

    // How far the check has come after node i: its children are due in the next level.
    fn after(self, words: &[u32], i: usize) -> Count
        requires { (i < node_count words.now) × (node_count words.now ≤ pool_limit) × (0 < self.here) × Bounded (suc i) i self }
        ensures { result ≡ after_of words.now i self }
    {
        let kids = bits::ones(child_bits(words, i));
        Count {
            here: self.here - 1,
            next: self.next + kids,
            children: self.children + kids,
            values: self.values + bits::ones(data_bits(words, i)),
            ..self
        }
    }
}

// How many lengths a node at a depth has data bits for: those up to 4 bits more that the width allows.
fn lengths(width: u32, depth: u32) -> u32
    requires { (width ≤ 64) × (depth + 5 < 2 ^ 32) }
    ensures { result ≡ min 5 (width + 1 - depth) }
{
    (width + 1).saturating_sub(depth).min(5)
}

// The least data bitmap that is too large at a depth: it has a bit for a length above the width, or bit 31.
fn data_limit(width: u32, depth: u32) -> u32
    requires { (width ≤ 64) × (depth + 5 < 2 ^ 32) }
    ensures { result ≡ 2 ^ usable width depth }
{
    let bits: u32 = (1 << lengths(width, depth)) - 1;
    1 << bits
}

// A child bit where a child would lie deeper than the width.
fn too_deep(width: u32, depth: u32, child: u32) -> bool
    requires { depth + 5 < 2 ^ 32 }
    ensures { result ≡ (leb width (depth + 4) && ltb 0 child) }
{
    width <= depth + 4 && child != 0
}

// The first fault of node i, if it has one. A node for which no depth is due is no earlier node's child.
fn check_node(width: u32, words: &[u32], i: usize, c: Count) -> Result<(), Fault>
    requires { (i < node_count words.now) × (node_count words.now ≤ pool_limit) × (width ≤ 64) × Bounded (suc i) i c }
    ensures { number_found result ≡ found_at width words.now i c }
{
    if c.here == 0 {
        return Err(Fault::NoParent);
    }
    let child = child_bits(words, i);
    let first = first_child(words, i);
    if data_limit(width, c.depth) <= data_bits(words, i) {
        return Err(Fault::DataBits);
    }
    if too_deep(width, c.depth, child) {
        return Err(Fault::ChildBits);
    }
    if first != 1 + c.children {
        return Err(Fault::FirstChild);
    }
    if words.len() / 4 < first as usize + bits::ones(child) as usize {
        return Err(Fault::ChildrenPastEnd);
    }
    if first_value(words, i) != c.values {
        return Err(Fault::FirstValue);
    }
    Ok(())
}

// The nodes upwards, once each, until a fault.
fn check_nodes(width: u32, words: &[u32]) -> Result<usize, PoolError>
    requires { (node_count words.now ≤ pool_limit) × (width ≤ 64) }
    ensures { checked result ≡ fault_answer (node_count words.now) (fault_from width words.now (node_count words.now) 0 (0 ∷ []) 0 0) }
{
    let nodes = words.len() / 4;
    let mut count = Count::START;
    for node in 0..nodes {
        let due = count.at_level();
        check_node(width, words, node, due).map_err(|fault| PoolError::Fault { fault, node })?;
        count = due.after(words, node);
    }
    Ok(nodes)
}

// The check alone: the number of nodes, or why the words are no pool of the width, with the first fault and its node.
pub fn check(width: u32, words: &[u32]) -> Result<usize, PoolError>
    ensures { checked result ≡ check_outcome width words.now }
{
    if !known_width(width) {
        return Err(PoolError::Width);
    }
    if words.is_empty() || words.len() % 4 != 0 {
        return Err(PoolError::Fault {
            fault: Fault::NoWholeNodes,
            node: 0,
        });
    }
    if defs::pool_limit() < words.len() / 4 {
        return Err(PoolError::Fault {
            fault: Fault::TooManyNodes,
            node: 0,
        });
    }
    check_nodes(width, words)
}
