// Reads decks, from the files named as arguments or from standard input, and prints a record of each.
#![tactic(auto)]

mod calls;
mod desk;
mod failure;
mod printout;
mod run;

use anyhow::anyhow;
use failure::Failure;
use run::run;
use std::env;
use std::fs::File;
use std::io::BufReader;

fn main(rt: HostRuntime) -> anyhow::Result<()> {
    run_all(&rt)
}

fn run_all(rt: &HostRuntime) -> anyhow::Result<()> {
    let mut named = false;
    let mut unread = false;
    for name in env::args(rt)?.skip(1) {
        named = true;
        println!(rt; "deck {name}")?;
        if !ran(run_file(rt, name.as_str()))? {
            println!(rt; "cannot be read")?;
            unread = true;
        }
    }
    if !named && !ran(run(rt, BufReader::new(rt.alloc(), rt.stdin())?))? {
        return Err(anyhow!("standard input cannot be read"));
    }
    if unread {
        return Err(anyhow!("a deck cannot be read"));
    }
    Ok(())
}

fn run_file(rt: &HostRuntime, name: &str) -> Result<(), Failure> {
    let file = File::open(rt, name).map_err(|_| Failure::Unread)?;
    run(rt, BufReader::new(rt.alloc(), file)?)
}

// False where the deck could not be read to its end, after which the next deck is run; another failure ends the program.
fn ran(outcome: Result<(), Failure>) -> anyhow::Result<bool> {
    match outcome {
        Ok(()) => Ok(true),
        Err(Failure::Unread) => Ok(false),
        Err(Failure::Unprinted(error)) => Err(anyhow::Error::from(error)),
        Err(Failure::Misplaced(misplaced)) => Err(anyhow!("{misplaced}")),
    }
}
