// Runs the calls on stored cases and on pools too large to store, and says how many came out wrong.
#![tactic(auto)]

mod large;
mod replay;
mod scan;

use std::io;

fn main(rt: HostRuntime) -> io::Result<()> {
    if large::all_right() {
        println!(rt; "the large pools came out right")?;
    } else {
        println!(rt; "the large pools came out WRONG")?;
    }
    let mut buffer = [0; 65536];
    let totals = replay::input(&mut rt.stdin(), &mut buffer)?;
    println!(rt; "{} stored cases replayed", totals.cases)?;
    println!(rt; "{} of them failed", totals.failed)?;
    if let Some(first) = totals.first_failed {
        println!(rt; "{first} is the first of these, counted from 1")?;
    }
    Ok(())
}
