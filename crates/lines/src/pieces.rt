// The pieces that lines are made of: bytes as they are, and the id of a stream.
ghost use Rattle.std.specs.Prelude.{length};
ghost use Rattle.snesl.specs.Listing.{id_text};
ghost use Rattle.decimals.specs.Writing.{Writes};
ghost use Rattle.lines.specs.Counting.{Countable};
ghost use Rattle.lines.specs.Pieces.{next_text};

use decimals::numbers;
use snesl::code::StreamId;

// Bytes at a position.
pub fn put_bytes(text: &mut [u8], at: usize, bytes: &[u8]) -> usize
    requires { Countable at bytes.now }
    ensures { Writes text.old text.new at bytes.now result }
{
    let mut p = at;
    for b in bytes {
        p = numbers::put(text, p, *b);
    }
    p
}

// The id of a stream.
pub fn put_id(text: &mut [u8], at: usize, s: StreamId) -> usize
    requires { Countable at (id_text s.0) }
    ensures { Writes text.old text.new at (id_text s.0) result }
{
    let p = numbers::put(text, at, b's');
    numbers::write_number(text, p, s.0 as u64)
}

// The next id of a list: behind a comma, unless it is the first.
pub fn put_next(text: &mut [u8], at: usize, first: bool, s: StreamId) -> usize
    requires { Countable at (next_text first s.0) }
    ensures { Writes text.old text.new at (next_text first s.0) result }
{
    if first {
        return put_id(text, at, s);
    }
    let p = numbers::put(text, at, b',');
    put_id(text, p, s)
}
