//! Drives boards of a text in orders of steps drawn from seeds, and writes the report that all of them gave.
//!
//! The first word says how many orders there are, and the others are those of the command `plain`. The text is read from
//! standard input. With status 0 each order came to an end, and all gave the report that was written. Else standard error says
//! why none was.
//!
//! Its tests have what a board answers between its steps, and which steps it refuses, over texts of worked rows.
#![tactic(auto)]

#[cfg(test)]
mod calls;
mod driving;
#[cfg(test)]
mod lines;
#[cfg(test)]
mod rows;
mod sample;
mod trial;
#[cfg(test)]
mod worked;

use crate::driving::{Told, told_in_orders};
use crate::sample::Sample;
use anyhow::{Result, bail};
use ooo_words::{Command, RunOptions, read};
use std::alloc::Global;
use std::env;
use std::io::{Read, Write};

fn main(rt: HostRuntime) -> Result<()> {
    let alloc = rt.alloc();
    let (orders, options) = asked(alloc, &words(&rt)?)?;
    let mut text = Vec::new(alloc);
    rt.stdin().read_to_end(&mut text)?;
    let Some(sample) = Sample::make(alloc, &text, options)? else {
        bail!("the text is refused, or has no stop time");
    };
    let told = told_in_orders(alloc, &sample, orders);
    drop(sample);
    match told? {
        Told::Same(report) => Ok(rt.stdout().write_all(&report)?),
        Told::Differs(seed) => bail!(
            "the order of seed {seed} came to no end, or gave another report"
        ),
    }
}

// The words after the program's name.
fn words(rt: &HostRuntime) -> Result<Vec<String>> {
    let mut words = Vec::new(rt.alloc());
    for word in env::args(rt)?.skip(1) {
        words.push(word)?;
    }
    Ok(words)
}

// How many orders the words ask for, and of what run.
fn asked(alloc: Global, words: &[String]) -> Result<(u32, RunOptions)> {
    let Some((orders, plain)) = words.split_first() else {
        bail!("the words are a number of orders, and those of plain");
    };
    let orders = orders.as_str().parse::<u32>()?;
    match read(alloc, plain) {
        Ok(Command::Plain(options)) => Ok((orders, options)),
        _ => bail!("the words after the number are those of plain"),
    }
}
