// A list call from its refusals to its records: where the walk starts, how many records may come, and the room for them.
ghost use Rattle.std.specs.Prelude.{◌≡◌, ◌*◌, ◌/◌, ◌≤◌, Ok, length};
ghost use Rattle.defs.specs.Check.{pool_limit};
ghost use Rattle.defs.specs.Lists.{records_of, record_words};
ghost use Rattle.defs.specs.Outcome.{entries_of, list_outcome};
ghost use Rattle.defs.specs.Refusals.{answer_of};
ghost use Rattle.theory.specs.Steps.{level_rest};
ghost use Rattle.view.specs.Seen.{seen};
ghost use Rattle.walk.specs.Ready.{job_of, Ready};
ghost use Rattle.sets.specs.Bound.{values_of, most_from};
ghost use Rattle.sets.specs.Listing.{Few, side_of, leaves, room_outcome};

use crate::covering_difference;
use crate::sides::Sides;
use defs::{Operation, Prefix, Refusal};
use theory::Level;
use view::Side;
use walk::Job;

// The level at which a walk starts: the node pair at the depth of the common length, rounded down to a node's depth.
fn common_start(job: Job<'_>) -> Level
    requires { (job.left.root.len ≤ 64) × (job.right.root.len ≤ 64) }
    ensures { Ready (job_of job.entry) result
        × (records_of job.entry.op (entries_of (seen job.entry.left)) (entries_of (seen job.entry.right)) ≡ level_rest (job_of job.entry) result) }
{
    let depth = bits::common_len(job.left.root, job.right.root) / 5 * 5;
    let left = job.left.at_depth(depth);
    let right = job.right.at_depth(depth);
    let prefix = view::shortened(job.left.root, depth);
    job.entered(prefix, left, right, walk::no_covers())
}

// Where each list's walk starts. Covering difference aligns the right view with the left root. As in the walk, an operation is a value and no type.
fn start(job: Job<'_>) -> Level
    requires { (job.left.root.len ≤ 64) × (job.right.root.len ≤ 64) }
    ensures { Ready (job_of job.entry) result
        × (records_of job.entry.op (entries_of (seen job.entry.left)) (entries_of (seen job.entry.right)) ≡ level_rest (job_of job.entry) result) }
{
    match job.op {
        Operation::CoveringDifference => covering_difference::start(job.left, job.right),
        _ => common_start(job),
    }
}

// The values of a side's pool: those before its last node, and those in it.
fn values_in(side: Side<'_>) -> u64
    ensures value { result ≡ values_of side.entry.words.now }
    ensures few { result ≤ 31 * pool_limit }
{
    let last = side.words.len() / 4 - 1;
    let held = bits::ones(pool::data_bits(side.words, last));
    pool::first_value(side.words, last) as u64 + held as u64
}

// The most records that a list may have: one for each value of the left pool, or of both. An operation is a value here too.
fn most_records(job: Job<'_>) -> u64
    ensures { result ≡ most_from job.entry.op (values_of job.entry.left.words.now) (values_of job.entry.right.words.now) }
{
    let a = values_in(job.left);
    match job.op {
        Operation::Union | Operation::CoveringUnion => a + values_in(job.right),
        Operation::Intersection | Operation::Difference | Operation::CoveringDifference => a,
    }
}

// The records that so many words have room for.
fn room_in(words: usize) -> u64
    ensures { result ≡ words / record_words }
{
    (words / defs::record_words()) as u64
}

// The records of a list that fits, written in one walk: how many there are.
fn written(job: Job<'_>, start: Level, out: &mut [u64]) -> u64
    requires ready { Ready (job_of job) start × Few (job_of job) start }
    requires room { record_words * length (level_rest (job_of job) start) ≤ length out.old }
    ensures { leaves (answer_of (Ok result)) out.new ≡ room_outcome (level_rest (job_of job.entry) start) out.old }
{
    job.run(start, true, out)
}

// The records of a list that may not fit, or the number needed: a walk counts them before anything is written.
fn counted(job: Job<'_>, start: Level, out: &mut [u64]) -> Result<u64, Refusal>
    requires { Ready (job_of job) start × Few (job_of job) start }
    ensures { leaves (answer_of result) out.new ≡ room_outcome (level_rest (job_of job.entry) start) out.old }
{
    let needed = job.run(start, false, out);
    if room_in(out.len()) < needed {
        return Err(Refusal::Room(needed));
    }
    Ok(written(job, start, out))
}

// The records of a list, or the number needed. Where every value of the pools would find room, nothing need be counted first.
fn listed(job: Job<'_>, start: Level, out: &mut [u64]) -> Result<u64, Refusal>
    requires { Ready (job_of job) start × Few (job_of job) start }
    ensures { leaves (answer_of result) out.new ≡ room_outcome (level_rest (job_of job.entry) start) out.old }
{
    if room_in(out.len()) < most_records(job) {
        return counted(job, start, out);
    }
    Ok(written(job, start, out))
}

// A list of two views as records, and how many there are, or a refusal. Public, and named in README.md: its words come from anyone, and are no Side yet.
pub fn list(
    op: Operation,
    width: u32,
    left: &[u32],
    left_root: Prefix,
    right: &[u32],
    right_root: Prefix,
    out: &mut [u64],
) -> Result<u64, Refusal>
    ensures { leaves (answer_of result) out.new ≡ list_outcome op width (side_of left.now left_root) (side_of right.now right_root) out.old }
{
    let both = Sides::checked(width, left, left_root, right, right_root)?;
    let job = Job {
        op,
        left: both.left,
        right: both.right,
    };
    listed(job, start(job), out)
}
