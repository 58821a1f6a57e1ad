// Whether what came out is what the line names.
ghost use Rattle.std.specs.Prelude.{◌≤◌, length};

use crate::fields::{BYTES, named};
use refusals::line::refusal_line;
use snesl::refusal::Refusal;

// The most bytes of a refusal's line.
const REFUSAL: usize = 53;

// A named output with its line feeds, which a line writes as `\n`, as many bytes as there is room for.
fn unfold(output: &[u8], out: &mut [u8]) -> usize
    ensures { result ≤ length out.new }
{
    let mut bytes = output.iter();
    for (n, slot) in out.iter_mut().enumerate() {
        match bytes.next() {
            Some(b'\\') => {
                bytes.next();
                *slot = b'\n';
            }
            Some(byte) => *slot = *byte,
            None => return n,
        }
    }
    out.len()
}

pub(crate) fn is_named(line: &[u8], text: &[u8]) -> bool {
    let mut output = [0u8; BYTES];
    let n = unfold(named(line), &mut output);
    &output[..n] == text
}

pub(crate) fn is_refusal(line: &[u8], refusal: Refusal) -> bool {
    let mut text = [0u8; REFUSAL];
    let n = refusal_line(refusal, &mut text);
    is_named(line, &text[..n])
}
