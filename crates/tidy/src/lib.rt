// Tidying: the source's nodes in order, each with what of it the view holds, and the nodes that hold nothing left out.
#![tactic(auto)]

ghost use Rattle.std.specs.Prelude.{◌≡◌, not, ◌||◌, ◌+◌, ◌-◌, ◌*◌, ◌^◌, ◌≤◌, ◌<◌, eqb, ltb, length, IfOk, IfErr};
ghost use Rattle.defs.specs.Pool.{node_count, ones};
ghost use Rattle.defs.specs.Prefix.{deeper};
ghost use Rattle.defs.specs.Entries.{view};
ghost use Rattle.defs.specs.Tidy.{is_under, nodes_of, tidy_pool, tidy_values};
ghost use Rattle.defs.specs.Outcome.{first_of, tidy_outcome};
ghost use Rattle.view.specs.Emptiness.{empty_at};
ghost use Rattle.tidy.specs.Blank.{blank_run, kids_from};
ghost use Rattle.tidy.specs.Full.{full_kids};
ghost use Rattle.tidy.specs.Runs.{Standing, Above, Ahead, below_run};
ghost use Rattle.tidy.specs.Kept.{Here, kids_on, node_on};
ghost use Rattle.tidy.specs.Chosen.{over, numbers_from, values_from, node_words};
ghost use Rattle.defs.specs.Refusals.{answer_for, answer_of};
ghost use Rattle.tidy.specs.Call.{side_of, pool_rows, Opened};

use defs::{Prefix, Refusal};
use view::{Bitmaps, Side};

// Where the children of node i start. After the last node that is the number of nodes.
fn kids_from(side: Side<'_>, i: u32) -> u32
    requires { i ≤ node_count side.words.now }
    ensures { result ≡ kids_from side.entry.words.now i }
{
    if i as usize == side.words.len() / 4 {
        return i;
    }
    pool::first_child(side.words, i as usize)
}

// No node from `from` on and before `to` has a value.
fn is_blank(words: &[u32], from: u32, to: u32) -> bool
    requires { to ≤ node_count words.now }
    ensures { result ≡ blank_run words.now from to }
{
    for i in from..to {
        if pool::data_bits(words, i as usize) != 0 {
            return false;
        }
    }
    true
}

// A node has an entry in it or below it, so many levels deep. It is asked level by level: on each, the nodes below it stand one after the other.
fn is_full(side: Side<'_>, node: u32, levels: u32) -> bool
    requires { node < node_count side.words.now }
    ensures { result ≡ not (empty_at side.entry.words.now levels node) }
{
    let mut from = node;
    let mut to = node + 1;
    for level in 0..levels {
        if from == to {
            return false;
        }
        if !is_blank(side.words, from, to) {
            return true;
        }
        from = kids_from(side, from);
        to = kids_from(side, to);
    }
    false
}

// Child c of a node of prefix p has an entry of the view in it or below it. Inside the view the child is asked; on the way to the root, the
// whole view is.
fn kid_is_used(side: Side<'_>, i: u32, p: Prefix, c: u32) -> bool
    requires { Here side.words.now side.root i p × (c < 32) }
    ensures { result ≡ is_under (view side.entry.words.now side.entry.root) (deeper p 5 c) }
{
    let child = pool::child_bits(side.words, i as usize);
    if !bits::bit(child, c) {
        return false;
    }
    let q = bits::place_prefix(p, 32 + c);
    if bits::leads(side.root, q) {
        let k = pool::first_child(side.words, i as usize) + bits::rank(child, c);
        return is_full(side, k, 12 - p.len / 5);
    }
    bits::leads(q, side.root) && !side.view_is_empty()
}

// The child bitmap that a node of prefix p has in the tidy pool. A loop of its own beside that of `kept_places`, which asks of data places and goes by the node's bits.
fn used_kids(side: Side<'_>, i: u32, p: Prefix) -> u32
    requires { Here side.words.now side.root i p }
    ensures { result ≡ kids_on side.entry.words.now side.entry.root i }
{
    let mut word: u32 = 0;
    for c in 0..32 {
        word = view::with_bit(word, c, kid_is_used(side, i, p, c));
    }
    word
}

// The children of node i that have an entry in them or below them. Only children that there are cost a turn: they are nodes one after the other.
fn full_kids(side: Side<'_>, i: u32, levels: u32) -> u32
    requires { i < node_count side.words.now }
    ensures { result ≡ full_kids side.entry.words.now levels i }
{
    let held = pool::child_bits(side.words, i as usize);
    let mut node = pool::first_child(side.words, i as usize);
    let mut word: u32 = 0;
    for c in bits::set_bits(u64::from(held)) {
        word = view::with_bit(word, c, is_full(side, node, levels));
        node += 1;
    }
    word
}

// The nodes of one depth that lie on one path with the root: they are those from `from` on and before `to`. Above the root there is one at most.
#[derive(Clone, Copy)]
struct Run {
    depth: u32,
    from: u32,
    to: u32,
}

impl Run {
    // The run of depth 0: the root's node.
    const TOP: Run = Run {
        depth: 0,
        from: 0,
        to: 1,
    };
}

// Places of a node's children: from `low` on and before `high`.
#[derive(Clone, Copy)]
struct Span {
    low: u32,
    high: u32,
}

// How many child places of a node at a depth lie on one path with a longer root: one, or those that the root's last bits leave open.
fn open_places(len: u32, depth: u32) -> u32
    requires { (depth ≤ 59) × (depth < len) }
    ensures { result ≡ 2 ^ (depth + 5 - len) }
{
    1 << (depth + 5).saturating_sub(len)
}

// Those places: the root's next 5 bits say which. No node at depth 60 has children.
fn open_span(root: Prefix, depth: u32) -> Span
    requires { (depth < root.len) × (root.len ≤ 64) }
    ensures { Ahead root depth result.low result.high }
{
    if 59 < depth {
        return Span { low: 0, high: 0 };
    }
    let size = open_places(root.len, depth);
    let next = bits::next_five(root.key, depth);
    let low = next - next % size;
    Span {
        low,
        high: low + size,
    }
}

// The children of a run's nodes: from the first child of its first node on, and before that of the node after it.
fn below_run(words: &[u32], run: Run) -> Run
    requires { (run.from ≤ run.to) × (run.to < node_count words.now) × (run.depth + 5 < 2 ^ 32) }
    ensures { result ≡ below_run words.now run }
{
    Run {
        depth: run.depth + 5,
        from: pool::first_child(words, run.from as usize),
        to: pool::first_child(words, run.to as usize),
    }
}

// The children on one path with the root of the one node on the way to it. Where there are none, the run ends where the next node's children start.
fn below_node(side: Side<'_>, run: Run) -> Run
    requires { Above side.words.now side.root run × (run.from < run.to) × (run.depth < side.root.len) }
    ensures { Standing side.entry.words.now side.entry.root result run.to × (run.to < result.to) }
{
    let places = open_span(side.root, run.depth);
    let child = pool::child_bits(side.words, run.from as usize);
    let first = pool::first_child(side.words, run.from as usize);
    let from = first + bits::rank(child, places.low);
    let to = first + bits::rank(child, places.high);
    if from == to {
        let end = pool::first_child(side.words, run.to as usize);
        return Run {
            depth: run.depth + 5,
            from: end,
            to: end,
        };
    }
    Run {
        depth: run.depth + 5,
        from,
        to,
    }
}

// The run of the next depth: all children of a run under the root, and of the node on the way to it those on one path with it.
fn next_run(side: Side<'_>, run: Run) -> Run
    requires { Above side.words.now side.root run }
    ensures { Standing side.entry.words.now side.entry.root result run.to × (run.to < result.to) }
{
    if side.root.len <= run.depth || run.from == run.to {
        return below_run(side.words, run);
    }
    below_node(side, run)
}

// The run that node i is before or in: the next one once this one is passed.
fn run_at(side: Side<'_>, run: Run, i: u32) -> Run
    requires { (side.root.len ≤ 64) × (i < node_count side.words.now) × Standing side.words.now side.root run i }
    ensures { Standing side.entry.words.now side.entry.root result i × (i < result.to) }
{
    if i == run.to {
        return next_run(side, run);
    }
    run
}

// The two bitmaps that a node on the way to the root has in the tidy pool: its prefix is the root's first bits.
fn way_node(side: Side<'_>, i: u32, p: Prefix) -> Bitmaps
    requires { Here side.words.now side.root i p }
    ensures { result ≡ node_on side.entry.words.now side.entry.root i }
{
    let kept = side.kept_data(Some(i), p);
    let kids = used_kids(side, i, p);
    Bitmaps {
        data: kept,
        child: kids,
    }
}

// The two bitmaps that a node has in the tidy pool. Before the run there is nothing to keep; under the root all values are kept.
fn kept_node(side: Side<'_>, run: Run, i: u32) -> Bitmaps
    requires { (side.root.len ≤ 64) × (i < node_count side.words.now) × Standing side.words.now side.root run i × (i < run.to) }
    ensures { result ≡ node_on side.entry.words.now side.entry.root i }
{
    if i < run.from {
        return Bitmaps { data: 0, child: 0 };
    }
    if run.depth < side.root.len {
        return way_node(side, i, view::shortened(side.root, run.depth));
    }
    Bitmaps {
        data: pool::data_bits(side.words, i as usize),
        child: full_kids(side, i, 12 - run.depth / 5),
    }
}

// The tidy pool has the node: it is the root, or it has an entry in it or below it.
fn is_kept(i: usize, b: Bitmaps) -> bool
    ensures { result ≡ (eqb i 0 || (ltb 0 b.data || ltb 0 b.child)) }
{
    i == 0 || 0 < b.data || 0 < b.child
}

// Four words at the front of a buffer: a node's bitmaps, its first child and its first value, after so many children and values.
fn put_node(out: &mut [u32], b: Bitmaps, children: u32, values: u32)
    requires { (4 ≤ length out.old) × (1 + children < 2 ^ 32) }
    ensures { out.new ≡ over (node_words b.data b.child children values) out.old }
{
    out[..4].copy_from_slice(&[b.data, b.child, 1 + children, values]);
}

// Values one after the other from `first` on, at the front of a buffer.
fn put_all(values: &mut [u32], first: u32, count: u32)
    requires { (count ≤ length values.old) × (first + count < 2 ^ 32) }
    ensures { values.new ≡ over (numbers_from first count) values.old }
{
    for at in 0..count as usize {
        values[at] = first + at as u32;
    }
}

// The old value index of each kept data bit, bit by bit: values are counted by all data bits that the source node has. Here and in `write` the place in a
// buffer is a number beside it, since a proof knows no element of what an iterator has lent that gives parts of the buffer.
fn put_some(values: &mut [u32], held: u32, first: u32, kept: u32)
    requires { (ones kept ≤ length values.old) × (first + 32 < 2 ^ 32) }
    ensures { values.new ≡ over (values_from held first kept 31) values.old }
{
    let mut at: usize = 0;
    for b in 0..31 {
        if bits::bit(kept, b) {
            values[at] = first + bits::rank(held, b);
            at += 1;
        }
    }
}

// The old value index of each kept data bit, at the front of a buffer. Where all are kept they are one after the other.
fn put_values(values: &mut [u32], held: u32, first: u32, kept: u32)
    requires { (held < 2 ^ 31) × (ones kept ≤ length values.old) × (first + 32 < 2 ^ 32) }
    ensures { values.new ≡ over (values_from held first kept 31) values.old }
{
    if kept == held {
        put_all(values, first, bits::ones(held));
    } else {
        put_some(values, held, first, kept);
    }
}

// What a tidy pool needs: its nodes and its entries.
#[derive(Clone, Copy)]
struct Size {
    nodes: u32,
    entries: u32,
}

// The size of the tidy pool: the walk over the nodes without writing.
fn measure(side: Side<'_>) -> Size
    requires { side.root.len ≤ 64 }
    ensures { (result.nodes ≡ length (nodes_of (view side.entry.words.now side.entry.root))) × (result.entries ≡ length (view side.entry.words.now side.entry.root)) }
{
    let mut nodes: u32 = 0;
    let mut entries: u32 = 0;
    let mut run = Run::TOP;
    for i in 0..side.words.len() / 4 {
        run = run_at(side, run, i as u32);
        let b = kept_node(side, run, i as u32);
        if is_kept(i, b) {
            nodes += 1;
            entries += bits::ones(b.data);
        }
    }
    Size { nodes, entries }
}

// The kept nodes in order, each into the parts of the two buffers that start after what is already written.
fn write(side: Side<'_>, out: &mut [u32], values: &mut [u32])
    requires short { side.root.len ≤ 64 }
    requires room { (4 * length (nodes_of (view side.words.now side.root)) ≤ length out.old) × (length (view side.words.now side.root) ≤ length values.old) }
    ensures { (out.new ≡ over (tidy_pool (view side.entry.words.now side.entry.root)) out.old) × (values.new ≡ over (tidy_values (view side.entry.words.now side.entry.root)) values.old) }
{
    let mut at: usize = 0;
    let mut children: u32 = 0;
    let mut count: usize = 0;
    let mut run = Run::TOP;
    for i in 0..side.words.len() / 4 {
        run = run_at(side, run, i as u32);
        let b = kept_node(side, run, i as u32);
        if is_kept(i, b) {
            put_node(&mut out[at..], b, children, count as u32);
            let held = pool::data_bits(side.words, i);
            let first = pool::first_value(side.words, i);
            put_values(&mut values[count..], held, first, b.data);
            at += 4;
            children += bits::ones(b.child);
            count += bits::ones(b.data) as usize;
        }
    }
}

// The side of a call, or the first of the refusals 1, 2 and 4.
pub fn checked<'a>(width: u32, words: &'a [u32], root: Prefix) -> Result<Side<'a>, Refusal>
    ensures refused { IfErr result (λ refusal. answer_for refusal ≡ first_of (pool_rows width (side_of words.entry.now root)) 0) }
    ensures opened { IfOk result (Opened width (side_of words.entry.now root)) }
{
    if let Err(error) = pool::check(width, words) {
        return Err(error.on_left());
    }
    if width < root.len {
        return Err(Refusal::LeftRoot);
    }
    Ok(Side { words, root })
}

// The tidy pool of the view at a root, and beside it the old value index of each new one: how many nodes it has, or a refusal. Public, over words
// that are no Side yet. Both sizes are
// known before the first write.
pub fn tidy(
    width: u32,
    words: &[u32],
    root: Prefix,
    out: &mut [u32],
    values: &mut [u32],
) -> Result<u64, Refusal>
    ensures { record { answer = answer_of result; output = out.new; values = values.new } ≡ tidy_outcome width (record { pool = words.now; root = root }) out.old values.old }
{
    let side = checked(width, words, root)?;
    let size = measure(side);
    if out.len() / 4 < size.nodes as usize {
        return Err(Refusal::Room(size.nodes as u64));
    }
    if values.len() < size.entries as usize {
        return Err(Refusal::ValueRoom(size.entries as u64));
    }
    write(side, out, values);
    Ok(size.nodes as u64)
}
