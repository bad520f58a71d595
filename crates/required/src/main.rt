//! Prints what each member of a text sheet needs by itself.
#![tactic(auto)]

use sizing::fault::Fault;
use sizing::given::Given;
use sizing::reply::Reply;
use std::io::Read;
use words::text::Lines;

// A need stands by itself, since it begins with the mark; a fault is named by the number of its line.
fn print_reply(rt: &HostRuntime, number: usize, reply: Result<Reply, Fault>) -> anyhow::Result<()> {
    match reply {
        Ok(Reply::Noted) => Ok(()),
        Ok(Reply::Needs(need)) => Ok(println!(rt; "{need}")?),
        Err(fault) => Ok(println!(rt; "line {number}: {fault}")?),
    }
}

fn run(rt: &HostRuntime) -> anyhow::Result<()> {
    let mut text = Vec::new(rt.alloc());
    rt.stdin().read_to_end(&mut text)?;
    let mut given = Given::new();
    for (number, line) in (1usize..).zip(Lines::new(&text)) {
        print_reply(rt, number, given.hear(line))?;
    }
    Ok(())
}

fn main(rt: HostRuntime) -> anyhow::Result<()> {
    run(&rt)
}
