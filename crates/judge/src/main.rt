// Reads a trace from standard input and prints what it read, or the fault.
#![tactic(auto)]

use std::io::Read;
use text::{MAX_BYTES, read};
use traces::{Draft, Trace};

// One byte more than a text may have, so that a longer one is seen to be too long.
const MOST_BYTES: u64 = MAX_BYTES as u64 + 1;

fn print_trace(rt: &HostRuntime, trace: &Trace) -> anyhow::Result<()> {
    for (at, instruction) in trace.instructions().enumerate() {
        println!(rt; "{at}: {instruction}")?;
    }
    let entries = trace.len();
    let threads = trace.thread_count();
    let addresses = trace.address_count();
    println!(rt; "entries {entries} threads {threads} addresses {addresses}")?;
    Ok(())
}

fn judge(rt: &HostRuntime) -> anyhow::Result<()> {
    let mut text = Vec::new(rt.alloc());
    rt.stdin().take(MOST_BYTES).read_to_end(&mut text)?;
    let mut draft = Draft::new(rt.alloc())?;
    match read(&mut draft, text.as_slice()) {
        Ok(()) => print_trace(rt, &draft.seal()),
        Err(fault) => {
            println!(rt; "{fault}")?;
            Ok(())
        }
    }
}

fn main(rt: HostRuntime) -> anyhow::Result<()> {
    judge(&rt)
}
