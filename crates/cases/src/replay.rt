// The stored cases: each call is made again, and its answer and buffers are held to those stored.
ghost use Rattle.std.specs.Prelude.{◌≤◌, length, IfOk};

use crate::scan::{Scanner, View, Word};
use defs::{Answer, Operation};
use std::io;
use std::io::Read;

// What stands for an answer where a stored list is too long for the program's buffers. No call gives it. A number and no `None` in the end, since a
// stored 99 has always compared as equal to it, and what the program prints stays.
const TOO_LONG: Answer = Answer {
    number: 99,
    beside: 0,
    second: 0,
};

// The call that a case makes.
#[derive(Clone, Copy)]
enum Kind {
    Check,
    List(Operation),
    Equality,
    Tidying,
}

impl From<u64> for Kind {
    fn from(number: u64) -> Self {
        match number {
            0 => Kind::Check,
            1 => Kind::List(Operation::Union),
            2 => Kind::List(Operation::Intersection),
            3 => Kind::List(Operation::Difference),
            4 => Kind::List(Operation::CoveringDifference),
            5 => Kind::List(Operation::CoveringUnion),
            6 => Kind::Equality,
            _ => Kind::Tidying,
        }
    }
}

// How many cases there were, how many failed, and the first of these, counted from 1.
#[derive(Clone, Copy, Default)]
pub(crate) struct Totals {
    pub(crate) cases: u64,
    pub(crate) failed: u64,
    pub(crate) first_failed: Option<u64>,
}

impl Totals {
    // One more case.
    fn count(&mut self, is_same: bool) {
        self.cases = self.cases.wrapping_add(1);
        if !is_same {
            self.failed = self.failed.wrapping_add(1);
            self.first_failed = self.first_failed.or(Some(self.cases));
        }
    }
}

// Whether the answer is the one that comes next.
fn answer_is_next(text: &mut Scanner<'_>, answer: Option<Answer>) -> bool
    ensures { length text.new ≤ length text.old }
{
    let Answer {
        number,
        beside,
        second,
    } = answer.unwrap_or(TOO_LONG);
    text.are_next(&[u64::from(number), beside, second])
}

// The check of a pool.
fn check(text: &mut Scanner<'_>, width: u32) -> bool
    ensures { length text.new ≤ length text.old }
{
    let mut words = [0u32; 256];
    let count = text.words(&mut words);
    let answer = words
        .get(..count)
        .map(|words| pool::check(width, words).into());
    answer_is_next(text, answer)
}

// The list of an operation, where all three fit their buffers.
fn listed(
    operation: Operation,
    width: u32,
    left: Option<View<'_>>,
    right: Option<View<'_>>,
    out: Option<&mut [u64]>,
) -> Option<Answer> {
    let (left, right) = (left?, right?);
    let done = sets::list(
        operation,
        width,
        left.words,
        left.root,
        right.words,
        right.root,
        out?,
    );
    Some(done.into())
}

// A list, with the whole output.
fn list(text: &mut Scanner<'_>, operation: Operation, width: u32) -> bool
    ensures { length text.new ≤ length text.old }
{
    let mut left_words = [0u32; 256];
    let mut right_words = [0u32; 256];
    let mut out = [0u64; 256];
    let left = text.view(&mut left_words);
    let right = text.view(&mut right_words);
    let count = text.words(&mut out);
    let answer = listed(operation, width, left, right, out.get_mut(..count));
    let is_answered = answer_is_next(text, answer);
    let is_written = text.are_next(out.get(..count).unwrap_or(&[]));
    is_answered && is_written
}

// The key equality of two views that fit their buffers.
fn compared(width: u32, left: Option<View<'_>>, right: Option<View<'_>>) -> Option<Answer> {
    let (left, right) = (left?, right?);
    let done = sets::equality::equal_keys(width, left.words, left.root, right.words, right.root);
    Some(done.into())
}

// Key equality.
fn equality(text: &mut Scanner<'_>, width: u32) -> bool
    ensures { length text.new ≤ length text.old }
{
    let mut left_words = [0u32; 256];
    let mut right_words = [0u32; 256];
    let left = text.view(&mut left_words);
    let right = text.view(&mut right_words);
    answer_is_next(text, compared(width, left, right))
}

// Tidying a view, where it and what is written fit their buffers.
fn tidied(
    width: u32,
    view: Option<View<'_>>,
    out: Option<&mut [u32]>,
    values: Option<&mut [u32]>,
) -> Option<Answer> {
    let view = view?;
    let done = tidy::tidy(width, view.words, view.root, out?, values?);
    Some(done.into())
}

// Tidying, with the whole output and value list. Of a list that is too long, as much as the buffer holds is compared.
fn tidying(text: &mut Scanner<'_>, width: u32) -> bool
    ensures { length text.new ≤ length text.old }
{
    let mut words = [0u32; 256];
    let mut out = [0u32; 256];
    let mut values = [0u32; 256];
    let view = text.view(&mut words);
    let out_count = text.words(&mut out);
    let value_count = text.words(&mut values);
    let answer = tidied(
        width,
        view,
        out.get_mut(..out_count),
        values.get_mut(..value_count),
    );
    let is_answered = answer_is_next(text, answer);
    let is_written = text.are_next(&out[..out_count.min(out.len())]);
    let is_valued = text.are_next(&values[..value_count.min(values.len())]);
    is_answered && is_written && is_valued
}

// One case: its kind, its width, and what its kind asks. The kind is a number of the stored text, so it is a value.
fn case(text: &mut Scanner<'_>) -> bool
    ensures { length text.new ≤ length text.old }
{
    let kind = Kind::from(text.number());
    let width = u32::low_bits(text.number());
    match kind {
        Kind::Check => check(text, width),
        Kind::List(operation) => list(text, operation, width),
        Kind::Equality => equality(text, width),
        Kind::Tidying => tidying(text, width),
    }
}

// Counts the cases of a part of the input, and says how many of its bytes are left. The part may end inside a case, which is left for the next part, with the comment before it.
fn part(text: &[u8], is_last: bool, totals: &mut Totals) -> usize
    ensures { result ≤ length text.now }
{
    let mut scanner = Scanner::new(text);
    let mut left = text.len();
    // Each case takes a byte or more, so that there are no more cases than bytes.
    for _ in text {
        scanner.skip();
        if scanner.is_empty() {
            break;
        }
        let is_same = case(&mut scanner);
        if !is_last && scanner.is_empty() {
            break;
        }
        totals.count(is_same);
        left = scanner.len();
    }
    left
}

// More of the input behind the bytes that are kept, until the buffer is full or the input ends: how many there are then.
fn more(input: &mut impl Read, buffer: &mut [u8], kept: usize) -> io::Result<usize>
    requires { kept ≤ length buffer.old }
    ensures { IfOk result (λ n. n ≤ length buffer.new) }
{
    let mut n = kept;
    // Not a `for`: only the read says how far it came.
    while n < buffer.len() {
        let got = input.read(&mut buffer[n..])?;
        if got == 0 {
            break;
        }
        n += got;
    }
    Ok(n)
}

// All cases of the standard input, a buffer at a time. The turns are more than any stored list takes.
pub(crate) fn input(source: &mut impl Read, buffer: &mut [u8]) -> io::Result<Totals> {
    let mut totals = Totals::default();
    let mut kept = 0;
    for _ in 0..1000 {
        let n = more(source, buffer, kept)?;
        // A full buffer says that there is more to come.
        let is_last = n < buffer.len();
        let left = part(&buffer[..n], is_last, &mut totals);
        if is_last {
            break;
        }
        buffer.copy_within(n - left.., 0);
        kept = left;
    }
    Ok(totals)
}
