// Reading a program's input.

ghost use Rattle.std.specs.Prelude.{◌≤◌, length, IfOk};

use std::io;
use std::io::Read;

// Fills the buffer from its front as far as the input goes, and answers how far.
pub fn read_input<R: Read>(source: &mut R, buffer: &mut [u8]) -> io::Result<usize>
    ensures { IfOk result (λ n. n ≤ length buffer.old) }
{
    let room = buffer.len();
    let mut rest = buffer;
    while !rest.is_empty() {
        match source.read(rest)? {
            0 => break,
            n => rest = &mut rest[n..],
        }
    }
    Ok(room - rest.len())
}
