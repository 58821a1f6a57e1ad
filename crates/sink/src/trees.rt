// The ids of a tree on the stack, as text.
ghost use Rattle.std.specs.Prelude.{true, ◌≡◌};
ghost use Rattle.snesl.specs.Programs.{ascending};
ghost use Rattle.snesl.specs.Listing.{tree_text};
ghost use Rattle.decimals.specs.Writing.{Writes};
ghost use Rattle.lines.specs.Pieces.{rest_text};
ghost use Rattle.sink.specs.Between as between;
ghost use Rattle.sink.specs.Between.{least, between};
ghost use Rattle.sink.specs.Trees.{TreeAt, IdsAt, OutsAt};

use decimals::numbers::put;
use lines::pieces::{put_id, put_next};
use snesl::code::StreamId;

// The tree of depth `depth` at q.
pub fn put_tree(env: &[u32], q: usize, depth: usize, text: &mut [u8], at: usize) -> usize
    requires { TreeAt env.now q depth at }
    ensures { (g : TreeAt env.now q depth at) → Writes text.old text.new at (tree_text g.tree) result }
{
    if depth == 0 {
        return put_id(text, at, StreamId(env[q] as usize));
    }
    let a = put(text, at, b'(');
    let b = put_tree(env, q, depth - 1, text, a);
    let c = put(text, b, b',');
    let d = put_id(text, c, StreamId(env[q + 3 * depth] as usize));
    put(text, d, b')')
}

// An id that lies from lo on and below `best`, else `best`.
fn lesser(lo: usize, best: usize, id: usize) -> usize
    ensures { result ≡ between.lesser lo best id }
{
    if lo <= id { best.min(id) } else { best }
}

// The least of the `count` ids at q from lo on, or hi.
fn least_at(env: &[u32], q: usize, count: usize, lo: usize, hi: usize) -> usize
    requires { IdsAt env.now q count }
    ensures { (g : IdsAt env.now q count) → result ≡ least lo hi g.ids }
{
    let mut best = hi;
    for i in 0..count {
        best = lesser(lo, best, env[q + 3 * i] as usize);
    }
    best
}

// The ids there that lie from lo on and below hi, in ascending order.
pub fn put_outs(
    env: &[u32],
    q: usize,
    count: usize,
    lo: usize,
    hi: usize,
    text: &mut [u8],
    at: usize,
) -> usize
    requires { OutsAt env.now q count lo hi at }
    ensures { (g : OutsAt env.now q count lo hi at) → Writes text.old text.new at (rest_text true (ascending (between lo hi g.held.ids))) result }
{
    let mut first = true;
    let mut from = lo;
    let mut p = at;
    // Where the next id is sought depends on the last one found, so that no range or iterator has them.
    loop {
        let s = least_at(env, q, count, from, hi);
        if s >= hi {
            return p;
        }
        p = put_next(text, p, first, StreamId(s));
        first = false;
        from = s + 1;
    }
}
