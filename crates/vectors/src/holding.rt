// `streams ELEMENTS JOB | E E ..`
use crate::fields::{BYTES, field, number};
use crate::naming::is_named;
use crate::writing::{TEXT, put_items};
use console::digits::decode;
use report::printing::ANSWER;
use sheet::run;
use snesl::limits::Buffer;

fn are_elements(line: &[u8], elements: &[i32]) -> bool {
    let mut text = [0u8; TEXT];
    let end = put_items(&mut text, 0, elements);
    let start = end.min(1);
    is_named(line, &text[start..end])
}

// In a part of these elements as long as the line says.
fn holds(line: &[u8], elements: &mut [i32], answer: &mut [u8]) -> bool {
    let mut job = [0u8; BYTES];
    let lent = number(field(line, 1)).min(elements.len());
    let n = decode(field(line, 2), &mut job);
    match run(&job[..n], &mut elements[..lent], answer) {
        Ok(counts) => {
            let room = counts.room.min(elements.len());
            are_elements(line, &elements[..room])
        }
        Err(_) => false,
    }
}

pub(crate) fn streams_case(line: &[u8]) -> bool {
    let mut elements = [0i32; Buffer::ELEMENTS];
    let mut answer = [0u8; ANSWER];
    holds(line, &mut elements, &mut answer)
}
