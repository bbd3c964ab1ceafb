// Carries out the cases of a table on standard input, one instruction each, and holds what each leaves to what the table says.
#![tactic(auto)]

mod case;
mod difference;
mod item;
mod problem;
mod state;
mod table;
mod trial;

use std::io;
use std::io::{BufRead, BufReader};
use table::Table;

fn main(rt: HostRuntime) -> io::Result<()> {
    run(&rt)
}

fn run(rt: &HostRuntime) -> io::Result<()> {
    let mut table = Table::new(rt);
    let lines = BufReader::new(rt.alloc(), rt.stdin())?.lines(rt.alloc());
    for (line, number) in lines.zip(1..) {
        table.read_line(number, line?.as_str())?;
    }
    table.close()
}
