// What came out, as text: words, and numbers with a blank before each.
ghost use Rattle.vectors.specs.Page.{Page, Within};

use decimals::numbers::{put, write_int, write_number};
use lines::pieces::put_bytes;

// The bytes of what comes out, with room to spare.
pub const TEXT: usize = 8192;

// What a line can list: a number, with a blank before it.
pub trait Item: Copy {
    fn put(self, text: &mut [u8], at: usize) -> usize
        requires { Page at text.old }
        ensures { Within result text.new };
}

impl Item for i32 {
    fn put(self, text: &mut [u8], at: usize) -> usize {
        let a = put(text, at, b' ');
        write_int(text, a, self).min(text.len())
    }
}

impl Item for usize {
    fn put(self, text: &mut [u8], at: usize) -> usize {
        let a = put(text, at, b' ');
        write_number(text, a, self as u64).min(text.len())
    }
}

pub fn put_items<T: Item>(text: &mut [u8], at: usize, items: &[T]) -> usize
    requires { Page at text.old }
    ensures { Within result text.new }
{
    let mut end = at;
    for item in items {
        end = item.put(text, end);
    }
    end
}

pub fn put_word(text: &mut [u8], at: usize, word: &[u8]) -> usize
    requires { Page at text.old }
    ensures { Within result text.new }
{
    let n = word.len().min(TEXT);
    let end = put_bytes(text, at, &word[..n]);
    end.min(text.len())
}
