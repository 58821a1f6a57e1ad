// `t2s DEPTH ELEMENTS LENGTHS TEXT | ..`, and `t2sb` for bools
ghost use Rattle.vectors.specs.Page.{Page, Within};

use crate::fields::{BYTES, LENGTHS, base_of, field, number};
use crate::naming::{is_named, is_refusal};
use crate::writing::{TEXT, put_items, put_word};
use console::digits::decode;
use snesl::code::Base;
use snesl::limits::Buffer;
use valuetext::storing::text_to_streams;

fn put_stored(text: &mut [u8], lengths: &[usize], elements: &[i32]) -> usize
    requires { Page 0 text.old }
    ensures { Within result text.new }
{
    let a = put_word(text, 0, b"lengths");
    let b = put_items(text, a, lengths);
    let c = put_word(text, b, b"\nelements");
    let d = put_items(text, c, elements);
    put_word(text, d, b"\n")
}

fn are_stored(line: &[u8], lengths: &[usize], elements: &[i32]) -> bool {
    let mut text = [0u8; TEXT];
    let end = put_stored(&mut text, lengths, elements);
    is_named(line, &text[..end])
}

// In parts of these buffers as long as the line says.
fn stores(line: &[u8], base: Base, elements: &mut [i32], lengths: &mut [usize]) -> bool {
    let mut text = [0u8; BYTES];
    let depth = number(field(line, 1)).min(255) as u8;
    let lent = number(field(line, 2)).min(elements.len());
    let places = number(field(line, 3)).min(lengths.len());
    let n = decode(field(line, 4), &mut text);
    match text_to_streams(
        &text[..n],
        base,
        depth,
        &mut elements[..lent],
        &mut lengths[..places],
    ) {
        Ok(total) => {
            let levels = (depth as usize + 1).min(lengths.len());
            let count = total.min(elements.len());
            are_stored(line, &lengths[..levels], &elements[..count])
        }
        Err(refusal) => is_refusal(line, refusal),
    }
}

pub(crate) fn store_case(line: &[u8]) -> bool {
    let base = base_of(line);
    let mut elements = [0i32; Buffer::ELEMENTS];
    let mut lengths = [0usize; LENGTHS];
    stores(line, base, &mut elements, &mut lengths)
}
