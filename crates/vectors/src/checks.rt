// `check FORMULA | depth D`, `bool depth D` or `refused N at P`
ghost use Rattle.vectors.specs.Page.{Page, Within};

use crate::fields::{BYTES, field};
use crate::naming::is_named;
use crate::writing::{Item, TEXT, put_word};
use checking::check::check;
use console::digits::decode;
use refusals::line::refusal_line;
use snesl::code::Base;
use snesl::refusal::Refusal;

fn put_base(text: &mut [u8], base: Base) -> usize
    requires { Page 0 text.old }
    ensures { Within result text.new }
{
    match base {
        Base::Int => put_word(text, 0, b"depth"),
        Base::Bool => put_word(text, 0, b"bool depth"),
    }
}

fn is_type(line: &[u8], base: Base, depth: u8) -> bool {
    let mut text = [0u8; TEXT];
    let a = put_base(&mut text, base);
    let b = (depth as usize).put(&mut text, a);
    is_named(line, &text[..b])
}

// A refusal, which this kind of line names without its line feed.
fn is_refused(line: &[u8], refusal: Refusal) -> bool {
    let mut text = [0u8; TEXT];
    let n = refusal_line(refusal, &mut text);
    match text[..n].split_last() {
        Some((_, refused)) => is_named(line, refused),
        None => false,
    }
}

pub(crate) fn check_case(line: &[u8]) -> bool {
    let mut formula = [0u8; BYTES];
    let n = decode(field(line, 1), &mut formula);
    match check(&formula[..n]) {
        Ok(found) => is_type(line, found.base, found.depth),
        Err(refusal) => is_refused(line, refusal),
    }
}
