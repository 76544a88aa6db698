// Input into a fixed buffer, for the programs.
#![tactic(auto)]

ghost use Rattle.std.specs.Prelude.{◌≤◌, length, IfOk};

use std::io;
use std::io::Read;

// Reads until the buffer is full or the input ends, and hands back how many bytes stand in it.
pub fn read_full(input: &mut impl Read, out: &mut [u8]) -> io::Result<usize>
    ensures { IfOk result (λ n. n ≤ length out.new) }
{
    let mut n = 0;
    // a read hands over as many bytes as it has
    while n < out.len() {
        match input.read(&mut out[n..])? {
            0 => break,
            k => n += k,
        }
    }
    Ok(n)
}
