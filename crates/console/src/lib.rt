// What the programs share: standard input is read until it ends or the buffer is full, and bytes are read from digits.
#![tactic(auto)]

ghost use Rattle.std.specs.Prelude.{◌<◌, ◌≤◌, length, take, IfOk};
ghost use Rattle.std.specs.Io.KnownBytes.{Consumes, IsAtEnd};

pub mod digits;

use std::io;
use std::io::Read;

// How many bytes were read: the reader's first ones, which stand at the buffer's start, and all of them where there is room left. Of a reader whose bytes are
// known the contract leaves one answer and one such start; of standard input no contract can say what it gives.
pub fn read_full<R: Read>(from: &mut R, bytes: &mut [u8]) -> io::Result<usize>
    ensures within { IfOk result (λ n. n ≤ length bytes.new) }
    ensures first { IfOk result (λ n. Consumes (R.remaining from.old) (R.remaining from.new) (take n bytes.new)) }
    ensures all { IfOk result (λ n. n < length bytes.new → IsAtEnd (R.remaining from.new)) }
{
    // A read brings as many bytes as it likes, so that no range says beforehand how often to read.
    let mut n = 0;
    while n < bytes.len() {
        let read = from.read(&mut bytes[n..])?;
        if read == 0 {
            return Ok(n);
        }
        n += read;
    }
    Ok(n)
}
