// Writing lines into a lent buffer. A text that does not fit is cut where the buffer ends. By hand and not by `write!`: nothing allocates, and each
// clause names the bytes that stand in the buffer, cut or not.
ghost use Rattle.std.specs.Prelude.{◌≡◌, [], ◌∷◌, ◌<◌, ◌≤◌, ◌/◌, length};
ghost use Rattle.defs.specs.Lists.{record_words};
ghost use Rattle.text.specs.Bytes.{tab};
ghost use Rattle.text.specs.Numbers.{digits, hex_text};
ghost use Rattle.text.specs.Output.{letter_of, number_field, mark_field, prefix_text, values_text, record_line, record_lines, end_line, shown_of, output_of, Wrote};

use crate::Call;
use crate::digits::{places, spell};
use defs::{Answer, missing_cover, missing_value, record_words};

// Copies as much of a text as there is room for, and answers how much that is.
fn put(text: &[u8], out: &mut [u8]) -> usize
    ensures { Wrote text.now out.old result out.new }
{
    let n = text.len().min(out.len());
    out[..n].copy_from_slice(&text[..n]);
    n
}

// Writes one byte, if there is room. Copying a slice of one byte would be a call of the C library.
fn put_byte(b: u8, out: &mut [u8]) -> usize
    ensures { Wrote (b ∷ []) out.old result out.new }
{
    match out {
        [first, ..] => {
            *first = b;
            1
        }
        [] => 0,
    }
}

// Writes a tab and the last k digits of a number.
fn put_digits(n: u64, base: u64, k: usize, out: &mut [u8]) -> usize
    requires { (0 < base) × (base ≤ 16) × (k ≤ 20) }
    ensures { Wrote (tab ∷ digits base k n) out.old result out.new }
{
    let mut text = [0; 20];
    spell(n, base, k, &mut text);
    let at = put_byte(b'\t', out);
    at + put(&text[..k], &mut out[at..])
}

// Writes a tab and a number in decimal.
fn put_number(n: u64, out: &mut [u8]) -> usize
    ensures { Wrote (number_field n) out.old result out.new }
{
    put_digits(n, 10, places(n), out)
}

// Writes a tab and a key.
fn put_key(n: u64, out: &mut [u8]) -> usize
    ensures { Wrote (tab ∷ hex_text n) out.old result out.new }
{
    put_digits(n, 16, 16, out)
}

// Writes a tab and a number, or - where it is the mark of a missing one.
fn put_mark(mark: u64, n: u64, out: &mut [u8]) -> usize
    ensures { Wrote (mark_field mark n) out.old result out.new }
{
    if n == mark {
        let at = put_byte(b'\t', out);
        return at + put_byte(b'-', &mut out[at..]);
    }
    put_number(n, out)
}

// The letter of a tag. A tag is a word of the records, which C reads as a number, and so no enum.
fn letter(tag: u64) -> u8
    ensures { result ≡ letter_of tag }
{
    match tag {
        1 => b'L',
        2 => b'R',
        _ => b'B',
    }
}

// Writes tag, key and length of a record.
fn put_prefix(key: u64, len: u64, tag: u64, out: &mut [u8]) -> usize
    ensures { Wrote (prefix_text key len tag) out.old result out.new }
{
    let a = put_byte(letter(tag), out);
    let b = a + put_key(key, &mut out[a..]);
    b + put_number(len, &mut out[b..])
}

// Writes the two values and the cover length of a record, and ends its line.
fn put_values(left: u64, right: u64, cover: u64, out: &mut [u8]) -> usize
    ensures { Wrote (values_text left right cover) out.old result out.new }
{
    let no_value = missing_value();
    let no_cover = missing_cover();
    let a = put_mark(no_value, left, out);
    let b = a + put_mark(no_value, right, &mut out[a..]);
    let c = b + put_mark(no_cover, cover, &mut out[b..]);
    c + put_byte(b'\n', &mut out[c..])
}

// Writes the line of the record in the first six words.
fn put_record(w: &[u64], out: &mut [u8]) -> usize
    requires { record_words ≤ length w.now }
    ensures { Wrote (record_line w.now) out.old result out.new }
{
    let a = put_prefix(w[0], w[1], w[2], out);
    a + put_values(w[3], w[4], w[5], &mut out[a..])
}

// Writes the lines of the first k records.
fn put_records(w: &[u64], k: usize, out: &mut [u8]) -> usize
    requires { k ≤ length w.now / record_words }
    ensures { Wrote (record_lines k w.now) out.old result out.new }
{
    let mut at = 0;
    for record in w.chunks_exact(record_words()).take(k) {
        at += put_record(record, &mut out[at..]);
    }
    at
}

// Writes the E line, which is made of the answer's numbers: so they come as numbers.
fn put_end(number: u32, beside: u64, out: &mut [u8]) -> usize
    ensures { Wrote (end_line number beside) out.old result out.new }
{
    let a = put_byte(b'E', out);
    let b = a + put_number(number as u64, &mut out[a..]);
    let c = b + put_number(beside, &mut out[b..]);
    c + put_byte(b'\n', &mut out[c..])
}

// How many records are shown: those of a list that is done; equality and refusals show none. The call is what line O says, so it is a value.
fn shown(call: Call, answer: Answer, w: &[u64]) -> usize
    ensures { result ≡ shown_of call answer w.now }
{
    match call {
        Call::Listing(_) if answer.number == 0 => {
            (w.len() / record_words()).min(answer.beside as usize)
        }
        _ => 0,
    }
}

// Writes the whole output and answers how many bytes it has in the buffer; what does not fit is left out.
pub fn write(call: Call, answer: Answer, words: &[u64], out: &mut [u8]) -> usize
    ensures { Wrote (output_of call answer words.now) out.old result out.new }
{
    let at = put_records(words, shown(call, answer, words), out);
    at + put_end(answer.number, answer.beside, &mut out[at..])
}
