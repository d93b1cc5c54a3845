// One walk for the five lists: two tries side by side, a stack of levels, one step at a time.
#![tactic(auto)]

ghost use Rattle.std.specs.Prelude.{◌≡◌, ◌∷◌, ◌++◌, ◌+◌, ◌-◌, ◌*◌, ◌^◌, ◌≤◌, ◌<◌, length, drop};
ghost use Rattle.defs.specs.Entries.{data_place, child_place};
ghost use Rattle.defs.specs.Lists.{words_of, record_words};
ghost use Rattle.theory.specs.Steps.{item_record, carried, covers_at, no_covers, emit_of, down_to, step_at, step_of, enter, level_rest};
ghost use Rattle.theory.specs.Sides.{value_in};
ghost use Rattle.theory.specs.Loop.{records_words};
ghost use Rattle.bits.specs.Places.{place_len, place_value};
ghost use Rattle.walk.specs.Ready.{job_of, Entering, Passing, Ready};
ghost use Rattle.walk.specs.Maps.{maps_of};
ghost use Rattle.walk.specs.Moves.{shown_to, needed};
ghost use Rattle.walk.specs.Loops.{Room, kept_or_written};

use defs::{Operation, Prefix};
use theory::{Covers, Item, Level, Node, Step, Value};
use view::{Bitmaps, Coverage, Side};

// The list that a walk makes, and the two sides that it makes it from.
#[derive(Clone, Copy)]
pub struct Job<'a> {
    pub op: Operation,
    pub left: Side<'a>,
    pub right: Side<'a>,
}

// No covers: the lists without covers carry none.
pub fn no_covers() -> Covers
    ensures { result ≡ no_covers }
{
    Covers {
        left: None,
        right: None,
    }
}

// What a data place of prefix q gives to a list, by the values there and the covers above it. Here and below, an operation is a value and no type: C and the text program hand it in.
fn item(op: Operation, q: Prefix, a: Value, b: Value, c: Covers) -> Option<Item>
    ensures { result ≡ emit_of op q a b c.left c.right }
{
    match op {
        Operation::Union => rules::union::item(q, a, b, None, None),
        Operation::Intersection => rules::intersection::item(q, a, b),
        Operation::Difference | Operation::CoveringDifference => {
            rules::difference::item(q, a, b)
        }
        Operation::CoveringUnion => rules::union::item(q, a, b, c.left, c.right),
    }
}

impl<'a> Job<'a> {
    // The places that a list visits in two nodes.
    fn maps(self, prefix: Prefix, left: Node, right: Node) -> Bitmaps
        requires { Entering (job_of self) prefix left right }
        ensures { result ≡ maps_of (job_of self.entry) prefix left right }
    {
        let a = view::bitmaps_at(self.left.words, left);
        let b = view::bitmaps_at(self.right.words, right);
        match self.op {
            Operation::Union | Operation::CoveringUnion => rules::union::wanted(a, b),
            Operation::Intersection => rules::intersection::wanted(a, b),
            Operation::Difference => rules::difference::wanted(a),
            Operation::CoveringDifference => {
                let kept = self.right.kept_data(right, prefix);
                rules::covering_difference::wanted(a, Coverage::from_data(kept))
            }
        }
    }

    // The level of two nodes, every place that the list wants still to visit.
    pub fn entered(self, prefix: Prefix, left: Node, right: Node, above: Covers) -> Level
        requires entering { Entering (job_of self) prefix left right }
        requires above_value { carried self.op above ≡ above }
        ensures { result ≡ enter (job_of self.entry) prefix left right above }
    {
        Level {
            prefix,
            left,
            right,
            above,
            todo: view::spread(self.maps(prefix, left, right)),
        }
    }

    // The longest entries above place h of a level, on both sides.
    fn covers_at(self, f: Level, h: u32) -> Covers
        requires { Entering (job_of self) f.prefix f.left f.right × (0 < h) × (h < 64) }
        ensures { result ≡ covers_at (job_of self.entry) f (place_len h) (place_value h) }
    {
        let left = self.left.cover_at(f.left, f.prefix, f.above.left, h);
        let right = self.right.cover_at(f.right, f.prefix, f.above.right, h);
        Covers { left, right }
    }

    // The covers that go down with a list to place h: with a covering union alone.
    fn covers_for(self, f: Level, h: u32) -> Covers
        requires { Entering (job_of self) f.prefix f.left f.right × (0 < h) × (h < 64) }
        ensures { result ≡ carried self.entry.op (covers_at (job_of self.entry) f (place_len h) (place_value h)) }
    {
        match self.op {
            Operation::CoveringUnion => self.covers_at(f, h),
            _ => no_covers(),
        }
    }

    // The cover that an item at place h may show, by the values there: of the side that has none.
    fn cover_shown(self, f: Level, h: u32, a: Value, b: Value) -> Covers
        requires { Entering (job_of self) f.prefix f.left f.right × (0 < h) × (h < 64) }
        ensures { result ≡ shown_to a b (covers_at (job_of self.entry) f (place_len h) (place_value h)) }
    {
        match (a, b) {
            (None, Some(_)) => Covers {
                left: self.left.cover_at(f.left, f.prefix, f.above.left, h),
                right: None,
            },
            (Some(_), None) => Covers {
                left: None,
                right: self.right.cover_at(f.right, f.prefix, f.above.right, h),
            },
            _ => no_covers(),
        }
    }

    // The covers that an item of a list at place h may show: those of a covering union alone.
    fn covers_shown(self, f: Level, h: u32, a: Value, b: Value) -> Covers
        requires { Entering (job_of self) f.prefix f.left f.right × (0 < h) × (h < 64) }
        ensures { result ≡ needed self.entry.op a b (covers_at (job_of self.entry) f (place_len h) (place_value h)) }
    {
        match self.op {
            Operation::CoveringUnion => self.cover_shown(f, h, a, b),
            _ => no_covers(),
        }
    }

    // The step at data place h of a level that has it no more.
    fn data_step(self, f: Level, h: u32) -> Step
        requires { Passing (job_of self) f × (0 < h) × (h < 32) }
        ensures { result ≡ step_at (job_of self.entry) f (data_place (place_len h) (place_value h)) }
    {
        let q = bits::place_prefix(f.prefix, h);
        let a = self.left.value_at(f.left, h, q);
        let b = self.right.value_at(f.right, h, q);
        match item(self.op, q, a, b, self.covers_shown(f, h, a, b)) {
            None => Step::Skip(f),
            Some(i) => Step::Record(i, f),
        }
    }

    // The step at child c of a level that has it no more: down to the two children, unless there is none.
    fn child_step(self, f: Level, h: u32) -> Step
        requires { Passing (job_of self) f × (32 ≤ h) × (h < 64) }
        ensures { result ≡ step_at (job_of self.entry) f (child_place (h - 32)) }
    {
        if 60 <= f.prefix.len {
            return Step::Skip(f);
        }
        let q = bits::place_prefix(f.prefix, h);
        let left = self.left.child_at(f.left, h - 32, q);
        let right = self.right.child_at(f.right, h - 32, q);
        self.down_to(f, q, left, right, self.covers_for(f, h))
    }

    // Down to two children, unless both are absent.
    fn down_to(self, f: Level, q: Prefix, left: Node, right: Node, above: Covers) -> Step
        requires entering { Entering (job_of self) q left right }
        requires above_value { carried self.op above ≡ above }
        ensures { result ≡ down_to (job_of self.entry) f q left right above }
    {
        match (left, right) {
            (None, None) => Step::Skip(f),
            _ => Step::Down(f, self.entered(q, left, right, above)),
        }
    }

    // The next step at a level: its lowest place.
    fn step(self, top: Level) -> Step
        requires { Ready (job_of self) top }
        ensures { result ≡ step_of (job_of self.entry) top }
    {
        if top.todo == 0 {
            return Step::Up;
        }
        let z = u64::trailing_zeros(top.todo);
        let f = Level {
            todo: top.todo - (1 << z),
            ..top
        };
        let h = view::place_at(z);
        if h < 32 {
            self.data_step(f, h)
        } else {
            self.child_step(f, h)
        }
    }

    // The walk from a level on: how many records there are, each written after the last one where that is asked for. A flag and a buffer, since no
    // clause could say readably what an Option of the buffer leaves behind; and a place in it, since a proof knows no element of what
    // `chunks_exact_mut` has lent. The stack is an array and its height, and no `ArrayVec`: that one blanks its room by `memset`, a name that the archive
    // for C would ask for from outside.
    pub fn run(self, start: Level, writes: bool, out: &mut [u64]) -> u64
        requires ready { Ready (job_of self) start }
        requires count_fits { length (level_rest (job_of self) start) < 2 ^ 64 }
        requires room { Room writes (level_rest (job_of self) start) out.old }
        ensures { (result ≡ length (level_rest (job_of self.entry) start))
            × (out.new ≡ kept_or_written writes (level_rest (job_of self.entry) start) out.old) }
    {
        let mut stack = [start; 13];
        let mut height: usize = 1;
        let mut count: u64 = 0;
        let mut at: usize = 0;
        while 0 < height {
            let top = height - 1;
            match self.step(stack[top]) {
                Step::Up => height = top,
                Step::Skip(f) => stack[top] = f,
                Step::Record(i, f) => {
                    stack[top] = f;
                    at += rules::record::put_if(writes, &mut out[at..], i);
                    count += 1;
                }
                Step::Down(f, g) => {
                    stack[top] = f;
                    stack[height] = g;
                    height += 1;
                }
            }
        }
        count
    }
}
