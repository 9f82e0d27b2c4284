//! Times what the store is made of, in nanoseconds a call, a row or an event.
//!
//! `bench columns` times columns of integers and of texts, `bench blocks` their bytes, `bench edits` edits of a long view, `bench nested` edits
//! inside one of its rows, `bench places` rows put in and removed at random places, `bench operators` the operators, `bench pairs none`, `size` and `rows` a join of sixteen million pairs, and `bench watches` what follows the events of a table. Without a word the operators go over a few rows, and what they answer is printed without times.
#![tactic(auto)]

mod at_random;
mod blocks;
mod clock;
mod columns;
mod edits;
mod nested;
mod operators;
mod structures;
mod views;
mod watches;

use anyhow::{Result, bail};
use std::env;

fn main(rt: HostRuntime) -> Result<()> {
    let words: Vec<String> = env::args(&rt)?.collect(rt.alloc())?;
    measure(&rt, &words)
}

/// Times what the words of the command line ask for. The first of them is the program.
fn measure(rt: &HostRuntime, words: &[String]) -> Result<()> {
    match words.get(1) {
        None => operators::list_all(rt),
        Some(part) => measure_part(
            rt,
            part.as_str(),
            words.get(2).map_or("none", |word| word.as_str()),
        ),
    }
}

/// Times the part of a word. The word behind it says how pairs are asked for.
fn measure_part(rt: &HostRuntime, part: &str, pairs: &str) -> Result<()> {
    match part {
        "blocks" => blocks::measure_all(rt),
        "columns" => columns::measure_all(rt),
        "edits" => edits::measure_all(rt),
        "nested" => nested::measure_all(rt),
        "operators" => operators::measure_all(rt),
        "pairs" => operators::list_pairs(rt, pairs),
        "places" => at_random::measure_all(rt),
        "watches" => watches::measure_all(rt),
        _ => bail!(
            "the words are blocks, columns, edits, nested, operators, pairs, places or watches"
        ),
    }
}
