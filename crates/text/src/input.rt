// Reading an input: the four lines at the top, then the node lines of each side.
ghost use Rattle.std.specs.Prelude.{◌≡◌, ◌/◌, min};
ghost use Rattle.text.specs.Bytes.{skip, line_at};
ghost use Rattle.text.specs.Input.{top_of, side_of, room_of, after_head, read_outcome};
ghost use Rattle.text.specs.Parts.{IsSide};

use crate::lines::{call_line, node_line, root_line, split_line, width_line};
use crate::{BadInput, Head, Part, Said};

// What stands after the first k lines.
fn skip(input: &[u8], k: usize) -> &[u8]
    ensures { result.now ≡ skip k input.now }
{
    let mut rest = input;
    for _ in 0..k {
        rest = split_line(rest).1;
    }
    rest
}

// Line k, from 0.
fn line_at(input: &[u8], k: usize) -> &[u8]
    ensures { result.now ≡ line_at k input.now }
{
    split_line(skip(input, k)).0
}

// The lines W, O, L and R, or the first bad one.
fn top(input: &[u8]) -> Result<Head, BadInput>
    ensures { result ≡ top_of input.now }
{
    let width = width_line(line_at(input, 0)).ok_or(BadInput::Line(1))?;
    let call = call_line(line_at(input, 1)).ok_or(BadInput::Line(2))?;
    let left = root_line(line_at(input, 2), b'L').ok_or(BadInput::Line(3))?;
    let right = root_line(line_at(input, 3), b'R').ok_or(BadInput::Line(4))?;
    Ok(Head {
        width,
        call,
        left,
        right,
    })
}

// The nodes that a side may have, where its buffer has so many words.
fn most_nodes(words: usize) -> usize
    ensures { result ≡ min 1024 (words / 4) }
{
    (words / 4).min(1024)
}

// The node lines of one side; first child and first value are counted from node to node. The words are written by their
// place: of what `chunks_exact_mut` lends, a proof knows no element afterwards.
fn side<'a>(input: &'a [u8], letter: u8, pool: &mut [u32]) -> Part<'a>
    ensures { IsSide (side_of letter (room_of pool.old) 1 0 input.now) pool.old pool.new result }
{
    let mut rest = input;
    let mut words = 0;
    let mut child: u32 = 1;
    let mut value: u32 = 0;
    for _ in 0..most_nodes(pool.len()) {
        let (line, others) = split_line(rest);
        let Some(node) = node_line(line, letter) else {
            break;
        };
        pool[words..words + 4].copy_from_slice(&[node.data_bits, node.child_bits, child, value]);
        child += node.child_bits.count_ones();
        value += node.data_bits.count_ones();
        words += 4;
        rest = others;
    }
    Part { words, rest }
}

// The node lines of both sides; the line after them, if there is one, is bad.
fn nodes(input: &[u8], head: Head, left: &mut [u32], right: &mut [u32]) -> Result<Said, BadInput>
    ensures { after_head (Ok head) (skip 4 input.now) left.old right.old ≡ record { request = result; left = left.new; right = right.new } }
{
    let l = side(skip(input, 4), b'l', left);
    let r = side(l.rest, b'r', right);
    if r.rest.is_empty() {
        return Ok(Said {
            head,
            left: l.words,
            right: r.words,
        });
    }
    Err(BadInput::Line(5 + (l.words / 4) as u64 + (r.words / 4) as u64))
}

// What the input says, or why it is refused. The pools' words go to the front of the lent buffers, which have room for
// 1,024 nodes each with 4,096 words; a shorter buffer lowers that side's limit.
pub fn read(input: &[u8], left: &mut [u32], right: &mut [u32]) -> Result<Said, BadInput>
    ensures { read_outcome input.now left.old right.old ≡ record { request = result; left = left.new; right = right.new } }
{
    if 65536 < input.len() {
        return Err(BadInput::TooLong);
    }
    let head = top(input)?;
    nodes(input, head, left, right)
}
