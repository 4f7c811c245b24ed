// `replay`: runs a recorded feed through a stack of delay nodes and prints what the core answers.
//
// `running` reads the script, builds its stack and sends its calls, one after another; `reading` has the script's line in
// hand; `beside` sends each call by `stacks::sending::send`, to the stack and to a second stream beside it; `output` keeps
// what is printed.
//
// A reader must believe, in specs/: `read_entries_of`, `read_nodes_of` and `read_calls_of` (Readings: what a script has), and
// `replay_of` (Replays: what is printed of it).

#![tactic(auto)]

mod beside;
mod output;
mod reading;
mod running;
#[cfg(test)]
mod shown;

use plan::input::read_input;
use running::replay;
use scripts::lines::reading::SCRIPT_LIMIT;
use std::io;
use std::io::Print;

fn main(rt: HostRuntime) -> anyhow::Result<()> {
    // one byte more than is read, so that a longer script shows
    let mut buffer = vec![in rt.alloc(); 0u8; SCRIPT_LIMIT + 1]?;
    let mut stdin = rt.stdin();
    let n = read_input(&mut stdin, buffer.as_mut_slice())?;
    let out = replay(rt.alloc(), &buffer.as_slice()[0..n])?;
    rt.write_all(out.as_slice())?;
    Ok(())
}
