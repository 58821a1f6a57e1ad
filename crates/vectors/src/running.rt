// `run ELEMENTS ANSWER JOB | LINES`
use crate::fields::{BYTES, field, number};
use crate::naming::is_named;
use console::digits::decode;
use report::printing::{ANSWER, BESIDE, run_lines};
use snesl::limits::Buffer;

// In parts of these buffers as long as the line says.
fn runs(line: &[u8], elements: &mut [i32], answer: &mut [u8], text: &mut [u8]) -> bool {
    let mut job = [0u8; BYTES];
    let lent = number(field(line, 1)).min(elements.len());
    let bytes = number(field(line, 2)).min(answer.len());
    let n = decode(field(line, 3), &mut job);
    let length = run_lines(&job[..n], &mut elements[..lent], &mut answer[..bytes], text);
    let end = length.min(text.len());
    is_named(line, &text[..end])
}

pub(crate) fn run_case(line: &[u8]) -> bool {
    let mut elements = [0i32; Buffer::ELEMENTS];
    let mut answer = [0u8; ANSWER];
    let mut text = [0u8; ANSWER + BESIDE];
    runs(line, &mut elements, &mut answer, &mut text)
}
