// `list BYTES FORMULA | LINES`
use crate::fields::{BYTES, field, number};
use crate::naming::{is_named, is_refusal};
use console::digits::decode;
use lister::list::list;

// What the listing program lends.
const LISTING: usize = 65_536;

// In a part of this text as long as the line says.
fn lists(line: &[u8], text: &mut [u8]) -> bool {
    let mut formula = [0u8; BYTES];
    let lent = number(field(line, 1)).min(text.len());
    let n = decode(field(line, 2), &mut formula);
    match list(&formula[..n], &mut text[..lent]) {
        Ok(length) => {
            let end = length.min(text.len());
            is_named(line, &text[..end])
        }
        Err(refusal) => is_refusal(line, refusal),
    }
}

pub(crate) fn list_case(line: &[u8]) -> bool {
    let mut text = [0u8; LISTING];
    lists(line, &mut text)
}
