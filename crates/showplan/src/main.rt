// `showplan`: reads live documents from standard input, and prints when each one is on screen and which
// pieces were refused. All that it prints is computed by `plan::planning::plan`.

#![tactic(auto)]

ghost use Rattle.std.specs.Prelude.{◌≤◌, length};

use plan::input::read_input;
use plan::planning::{INPUT_LIMIT, plan, plan_limit};
use std::io;
use std::io::{Print, Read};

// Reads the input, and prints its plan. The output is as long as any plan, so nothing is refused.
fn run<R: Read, P: Print>(
    source: &mut R,
    sink: &P,
    buffer: &mut [u8],
    out: &mut [u8],
) -> io::Result<()>
    requires { 7300000 ≤ length out.old }
{
    let n = read_input(source, buffer)?;
    match plan(&buffer[0..n], out) {
        Ok(m) => sink.write_all(&out[0..m]),
        Err(_) => unreachable(),
    }
}

fn main(rt: HostRuntime) -> io::Result<()> {
    // one byte more than is read, so that a longer input shows
    let mut buffer = vec![in rt.alloc(); 0u8; INPUT_LIMIT + 1]?;
    let mut out = vec![in rt.alloc(); 0u8; plan_limit()]?;
    let mut stdin = rt.stdin();
    run(&mut stdin, &rt, buffer.as_mut_slice(), out.as_mut_slice())
}
