// The types that every call speaks of, and the numbers that are fixed once. What they mean is said in specs/.
#![tactic(auto)]

ghost use Rattle.std.specs.Prelude.{◌≡◌};
ghost use Rattle.defs.specs.Check.{pool_limit};
ghost use Rattle.defs.specs.Lists.{missing, no_cover, record_words};
ghost use Rattle.defs.specs.Outcome.{answer};

mod refusals;

pub use refusals::{Fault, PoolError, Refusal};

// A 64-bit key, first bit highest, and a length. Prefixes stand in the order of their keys, and of their lengths where the keys are equal.
#[repr(C)]
#[derive(Clone, Copy, Debug, Default, PartialEq, Eq, PartialOrd, Ord)]
pub struct Prefix {
    pub key: u64,
    pub len: u32,
}

// The refusal number or 0, the number beside it, and a second one, which only the check uses for its fault. Numbers and no enum: C gets it so.
#[repr(C)]
#[derive(Clone, Copy, Debug, PartialEq, Eq)]
pub struct Answer {
    pub number: u32,
    pub beside: u64,
    pub second: u64,
}

// The five lists.
#[derive(Clone, Copy, Debug, PartialEq, Eq)]
pub enum Operation {
    Union,
    Intersection,
    Difference,
    CoveringDifference,
    CoveringUnion,
}

impl Answer {
    // An answer with 0 for its second number.
    pub fn new(number: u32, beside: u64) -> Answer
        ensures { result ≡ answer number beside 0 }
    {
        Answer {
            number,
            beside,
            second: 0,
        }
    }
}

// The largest number of nodes in a pool.
pub fn pool_limit() -> usize
    ensures { result ≡ pool_limit }
{
    65536
}

// The words of a record.
pub fn record_words() -> usize
    ensures { result ≡ record_words }
{
    6
}

// The mark of a missing value.
pub fn missing_value() -> u64
    ensures { result ≡ missing }
{
    4294967295
}

// The mark of a missing cover length.
pub fn missing_cover() -> u64
    ensures { result ≡ no_cover }
{
    255
}
