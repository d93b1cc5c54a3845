// A view as one value: the pool's words, the width, and the root's key and length. Whoever holds the fields can make one, so each call over views takes them apart and makes the call of sets or tidy, which checks everything again.
#![tactic(auto)]

ghost use Rattle.std.specs.Prelude.{◌≡◌};
ghost use Rattle.defs.specs.declared.Operation.TheVariants.{CoveringDifference};
ghost use Rattle.defs.specs.Outcome.{list_outcome, equal_outcome, tidy_outcome};
ghost use Rattle.defs.specs.Refusals.{answer_of, answer_whether};
ghost use Rattle.lhamtrovi.specs.Plain.{side};
ghost use Rattle.views.specs.Views.{side_of, opened, opened_by, view_of};

use defs::{Operation, Prefix, Refusal};

// A view: pool words, width, and the root's key and length.
#[derive(Clone, Copy)]
pub struct View<'a> {
    pub words: &'a [u32],
    pub width: u32,
    pub key: u64,
    pub len: u32,
}

// Why a view was not opened, with the fields that were given: they are a view all the same.
#[derive(Clone, Copy)]
pub struct NotOpened<'a> {
    pub refusal: Refusal,
    pub view: View<'a>,
}

// The view that was opened, or was not. Its fields are what was given, whatever the answer.
pub fn view_of<'a>(opened: Result<View<'a>, NotOpened<'a>>) -> View<'a>
    ensures { result ≡ view_of (opened_by opened.entry) }
{
    match opened {
        Ok(view) => view,
        Err(error) => error.view,
    }
}

impl<'a> View<'a> {
    // Checks the width, the words and the root, and holds them together: the first of the refusals 1, 2 and 4, or the view.
    pub fn open(width: u32, words: &'a [u32], key: u64, len: u32) -> Result<View<'a>, NotOpened<'a>>
        ensures { opened_by result ≡ opened width words.entry key len }
    {
        let view = View {
            words,
            width,
            key,
            len,
        };
        match tidy::checked(width, words, view.root()) {
            Ok(_) => Ok(view),
            Err(refusal) => Err(NotOpened { refusal, view }),
        }
    }

    // The root.
    fn root(self) -> Prefix
        ensures { result ≡ (side_of self.entry).root }
    {
        Prefix {
            key: self.key,
            len: self.len,
        }
    }

    // The list of an operation over this view on the left and another on the right: D1 to D5. Here and below, a call on two views is made at
    // the left one's width.
    pub fn list<'b>(self, op: Operation, right: View<'b>, out: &mut [u64]) -> Result<u64, Refusal>
        ensures { record { answer = answer_of result; output = out.new } ≡ list_outcome op self.entry.width (side_of self.entry) (side_of right.entry) out.old }
    {
        sets::list(
            op,
            self.width,
            self.words,
            self.root(),
            right.words,
            right.root(),
            out,
        )
    }

    // D6: whether the two views have the same prefixes.
    pub fn equal_keys<'b>(self, right: View<'b>) -> Result<bool, Refusal>
        ensures { answer_whether result ≡ equal_outcome self.entry.width (side_of self.entry) (side_of right.entry) }
    {
        sets::equality::equal_keys(
            self.width,
            self.words,
            self.root(),
            right.words,
            right.root(),
        )
    }

    // D7: the tidy pool of a view, and the old value index of each new one.
    pub fn tidy(self, out: &mut [u32], values: &mut [u32]) -> Result<u64, Refusal>
        ensures { record { answer = answer_of result; output = out.new; values = values.new } ≡ tidy_outcome self.entry.width (side_of self.entry) out.old values.old }
    {
        tidy::tidy(self.width, self.words, self.root(), out, values)
    }
}

// The covering difference of two views that are made here, for callers that hold plain words and numbers. Public, and named in docs/CONTRACTS.md.
pub fn covering_difference_of(
    width: u32,
    left: &[u32],
    left_key: u64,
    left_len: u32,
    right: &[u32],
    right_key: u64,
    right_len: u32,
    out: &mut [u64],
) -> Result<u64, Refusal>
    ensures { record { answer = answer_of result; output = out.new } ≡ list_outcome CoveringDifference width (side left.now left_key left_len) (side right.now right_key right_len) out.old }
{
    let l = View {
        words: left,
        width,
        key: left_key,
        len: left_len,
    };
    let r = View {
        words: right,
        width,
        key: right_key,
        len: right_len,
    };
    l.list(Operation::CoveringDifference, r, out)
}
