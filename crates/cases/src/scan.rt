// Numbers, words and views from the text of the stored cases.
ghost use Rattle.std.specs.Prelude.{◌≡◌, ◌≤◌, ℕ, List, length};

use defs::Prefix;
use std::marker::Model;

// A word of a buffer: a pool's, a value list's or a record's.
pub(crate) trait Word: Copy + Into<u64> {
    // The low bits of a number, as many as the word has.
    fn low_bits(number: u64) -> Self;
}

impl Word for u32 {
    fn low_bits(number: u64) -> Self {
        (number & 0xffff_ffff) as u32
    }
}

impl Word for u64 {
    fn low_bits(number: u64) -> Self {
        number
    }
}

// A hex digit's value. The text program has such a reader of its own, with another contract; the two share no crate.
fn digit(c: u8) -> Option<u8> {
    match c {
        b'0'..=b'9' => Some(c - b'0'),
        b'a'..=b'f' => Some(c - b'a' + 10),
        _ => None,
    }
}

// A view of a case.
#[derive(Clone, Copy)]
pub(crate) struct View<'a> {
    pub(crate) words: &'a [u32],
    pub(crate) root: Prefix,
}

// Reads a text from its front. A contract sees it as the bytes that are left. That none come back speaks of two states, so each reader has a clause for it: no invariant of the type could say it.
#[derive(Drop)]
pub(crate) struct Scanner<'a> {
    rest: &'a [u8],
}

impl<'a> Model for Scanner<'a> {
    ghost Value = { List ℕ };

    ghost view = { λ s. s.rest.now };
}

impl Scanner<'_> {
    pub(crate) fn new(text: &[u8]) -> Scanner<'_>
        ensures { result ≡ text.now }
    {
        Scanner { rest: text }
    }

    // How many bytes are left.
    pub(crate) fn len(&self) -> usize
        ensures { result ≡ length self.now }
    {
        self.rest.len()
    }

    pub(crate) fn is_empty(&self) -> bool {
        self.rest.is_empty()
    }

    // On to the next digit, past blanks and comments, or to the end.
    pub(crate) fn skip(&mut self)
        ensures { length self.new ≤ length self.old }
    {
        let mut comment = false;
        while let [c, rest @ ..] = self.rest {
            if comment {
                comment = *c != b'\n';
            } else if *c == b'#' {
                comment = true;
            } else if digit(*c).is_some() {
                return;
            }
            self.rest = rest;
        }
    }

    // The next number, or 0 where the text has no more. A number and no `Option`: what a text without its end does stays as it was. In one pass, since reading the text is most of a run.
    pub(crate) fn number(&mut self) -> u64
        ensures { length self.new ≤ length self.old }
    {
        self.skip();
        let mut value = 0;
        while let [c, rest @ ..] = self.rest {
            let Some(d) = digit(*c) else {
                break;
            };
            value = (value << 4) | u64::from(d);
            self.rest = rest;
        }
        value
    }

    // A count, and so many words into the front of a buffer, as far as it goes. A larger count is for the caller to refuse.
    pub(crate) fn words<W: Word>(&mut self, into: &mut [W]) -> usize
        ensures { length self.new ≤ length self.old }
    {
        let count = self.number() as usize;
        for word in into.iter_mut().take(count) {
            *word = W::low_bits(self.number());
        }
        count
    }

    // A view, if its words fit the buffer that they go to.
    pub(crate) fn view<'a>(&mut self, into: &'a mut [u32]) -> Option<View<'a>>
        ensures { length self.new ≤ length self.old }
    {
        let count = self.words(into);
        let key = self.number();
        let len = u32::low_bits(self.number());
        Some(View {
            words: into.get(..count)?,
            root: Prefix { key, len },
        })
    }

    // Whether the next numbers are these words. All of them are read.
    pub(crate) fn are_next<W: Word>(&mut self, words: &[W]) -> bool
        ensures { length self.new ≤ length self.old }
    {
        let mut same = true;
        for word in words {
            same &= self.number() == (*word).into();
        }
        same
    }
}
