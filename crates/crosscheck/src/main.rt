//! A second watch, made apart, to hold the product against.
//! It has its own reader of words, its own judge, which tries every position that a rule's sentence speaks of on the whole history of samples,
//! and its own order of notices. It shares with the product nothing but the type of a notice, and that only to call it.
//! Thousands of random stories are played through both, and every answer is compared.

#![tactic(auto)]

mod invent;
mod judge;
mod model;
mod play;
mod product;
mod random;
mod record;
mod refusal;
mod second;
mod talk;
mod tally;

use crate::play::play;
use crate::record::Record;
use anyhow::bail;

const STORIES: u32 = 20_000;

fn main(rt: HostRuntime) -> anyhow::Result<()> {
    let heap = rt.alloc();
    let mut record = Record::new(heap);
    for number in 1..=STORIES {
        play(heap, number, &mut record)?;
    }
    println!(rt; "{}", record.tally)?;
    if let Some(difference) = &record.first {
        eprintln!(rt; "{difference}")?;
        bail!("the watches differ");
    }
    Ok(())
}
