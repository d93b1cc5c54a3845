// From the bytes of a request to the bytes of its answer: the text program without its input and output.
#![tactic(auto)]

ghost use Rattle.std.specs.Prelude.{◌≡◌, ◌≤◌, length};
ghost use Rattle.text.specs.Output.{Wrote};
ghost use Rattle.answer.specs.Answering.{side, leaves, called, said_by, text_of};

use defs::{Answer, Prefix, Refusal};
use text::{Call, Said};

// The answer to a call on two pools, whose words nobody has checked yet. The call is a value that the input names; the E line shows the numbers.
fn called(
    call: Call,
    width: u32,
    left: &[u32],
    left_root: Prefix,
    right: &[u32],
    right_root: Prefix,
    out: &mut [u64],
) -> Answer
    ensures { leaves result out.new ≡ called call width (side left.now left_root) (side right.now right_root) out.old }
{
    match call {
        Call::Listing(op) => {
            sets::list(op, width, left, left_root, right, right_root, out).into()
        }
        Call::Equality => {
            sets::equality::equal_keys(width, left, left_root, right, right_root).into()
        }
    }
}

// The answer to what a good input says; its pools are the first words of two buffers.
fn said(s: Said, left: &[u32], right: &[u32], out: &mut [u64]) -> Answer
    requires { (s.left ≤ length left.now) × (s.right ≤ length right.now) }
    ensures { leaves result out.new ≡ said_by s left.now right.now out.old }
{
    let head = s.head;
    called(
        head.call,
        head.width,
        &left[..s.left],
        head.left,
        &right[..s.right],
        head.right,
        out,
    )
}

// The text that answers an input, and its length. Room for 1,024 nodes a side and 512 records makes the limits.
pub fn answer(input: &[u8], out: &mut [u8]) -> usize
    ensures { Wrote (text_of input.now) out.old result out.new }
{
    let mut left = [0; 4096];
    let mut right = [0; 4096];
    let mut records = [0; 3072];
    match text::input::read(input, &mut left, &mut right) {
        Ok(s) => {
            let a = said(s, &left, &right, &mut records);
            text::output::write(s.head.call, a, &records, out)
        }
        Err(e) => {
            let refused = Answer::from(Refusal::Line(e.line_number()));
            text::output::write(Call::Equality, refused, &records, out)
        }
    }
}
