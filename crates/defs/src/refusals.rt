// Why words are no pool, and why a call is refused, with the numbers under which C gets them.
ghost use Rattle.std.specs.Prelude.{◌≡◌};
ghost use Rattle.defs.specs.Refusals.{fault_number, checked, on_left, on_right, answer_for, answer_of, answer_whether};

use crate::Answer;

// The faults of a pool, in the order in which they are tested.
#[derive(Clone, Copy, Debug, PartialEq, Eq)]
pub enum Fault {
    // The words are none, or not whole nodes.
    NoWholeNodes = 1,
    // There are more nodes than a pool may have.
    TooManyNodes = 2,
    // A node other than the root is no earlier node's child.
    NoParent = 3,
    // A data bit is set that stands for no length, or for one above the width.
    DataBits = 4,
    // A child bit is set where a child would lie deeper than the width.
    ChildBits = 5,
    // The first child is not the one after all children of earlier nodes.
    FirstChild = 6,
    // A child's number is not below the number of nodes.
    ChildrenPastEnd = 7,
    // The first value is not the one after all values of earlier nodes.
    FirstValue = 8,
}

// Why words are no pool of a width.
#[derive(Clone, Copy, Debug, PartialEq, Eq)]
pub enum PoolError {
    // The width is neither 32 nor 64.
    Width,
    // The first fault, and its node.
    Fault { fault: Fault, node: usize },
}

// Why a call is refused. A call with one side has it as its left one.
#[derive(Clone, Copy, Debug, PartialEq, Eq)]
pub enum Refusal {
    // The width is neither 32 nor 64.
    Width,
    // The left pool has a fault, at this node.
    LeftPool(u64),
    // The right pool has a fault, at this node.
    RightPool(u64),
    // The left root is longer than the width.
    LeftRoot,
    // The right root is longer than the width.
    RightRoot,
    // The output has no room for so many records or nodes.
    Room(u64),
    // The value list has no room for so many entries.
    ValueRoom(u64),
    // The text program cannot read this line of its input.
    Line(u64),
}

impl Fault {
    // The number that the check gives to C.
    pub fn number(self) -> u64
        ensures { result ≡ fault_number self }
    {
        self as u64
    }
}

impl PoolError {
    // The refusal of a call whose left pool, or only one, this is said of. Two functions, since a caller names its side.
    pub fn on_left(self) -> Refusal
        ensures { result ≡ on_left self }
    {
        match self {
            PoolError::Width => Refusal::Width,
            PoolError::Fault { node, .. } => Refusal::LeftPool(node as u64),
        }
    }

    // The refusal of a call whose right pool this is said of.
    pub fn on_right(self) -> Refusal
        ensures { result ≡ on_right self }
    {
        match self {
            PoolError::Width => Refusal::Width,
            PoolError::Fault { node, .. } => Refusal::RightPool(node as u64),
        }
    }
}

impl From<Refusal> for Answer {
    ghost from_gives = { λ refusal answer. answer ≡ answer_for refusal };

    fn from(refusal: Refusal) -> Answer {
        match refusal {
            Refusal::Width => Answer::new(1, 0),
            Refusal::LeftPool(node) => Answer::new(2, node),
            Refusal::RightPool(node) => Answer::new(3, node),
            Refusal::LeftRoot => Answer::new(4, 0),
            Refusal::RightRoot => Answer::new(5, 0),
            Refusal::Room(needed) => Answer::new(6, needed),
            Refusal::ValueRoom(needed) => Answer::new(7, needed),
            Refusal::Line(line) => Answer::new(9, line),
        }
    }
}

impl From<Result<u64, Refusal>> for Answer {
    ghost from_gives = { λ outcome answer. answer ≡ answer_of outcome };

    fn from(outcome: Result<u64, Refusal>) -> Answer {
        match outcome {
            Ok(done) => Answer::new(0, done),
            Err(refusal) => Answer::from(refusal),
        }
    }
}

// One impl for each thing that a call may say when it is done: a number, or yes or no.
impl From<Result<bool, Refusal>> for Answer {
    ghost from_gives = { λ outcome answer. answer ≡ answer_whether outcome };

    fn from(outcome: Result<bool, Refusal>) -> Answer {
        match outcome {
            Ok(yes) => Answer::new(0, yes as u64),
            Err(refusal) => Answer::from(refusal),
        }
    }
}

impl From<Result<usize, PoolError>> for Answer {
    ghost from_gives = { λ outcome answer. answer ≡ checked outcome };

    fn from(outcome: Result<usize, PoolError>) -> Answer {
        match outcome {
            Ok(nodes) => Answer::new(0, nodes as u64),
            Err(PoolError::Width) => Answer::new(1, 0),
            Err(PoolError::Fault { fault, node }) => Answer {
                number: 2,
                beside: node as u64,
                second: fault.number(),
            },
        }
    }
}
