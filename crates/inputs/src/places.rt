// The words of an input's streams on the stack of words.
ghost use Rattle.std.specs.Prelude.{◌≡◌, ◌++◌, ◌+◌, ◌-◌, ◌*◌, ◌≤◌, ◌<◌, length, drop};
ghost use Rattle.snesl.specs.Machine.{sum_of};
ghost use Rattle.inputs.specs.Places.{row_words};

use environment::put_place;

// Streams of these lengths that stand one after another up to `end`, the first with this id: their words, just below sp.
pub fn push_places(lengths: &[usize], id: usize, end: usize, sp: usize, env: &mut [u32]) -> usize
    requires { (3 * length lengths.now ≤ sp) × (sp ≤ length env.old) × (id + length lengths.now ≤ 4294967296) × (sum_of lengths.now ≤ end) × (end < 4294967296) }
    ensures { (result + 3 * length lengths.now ≡ sp) × (drop result env.new ≡ row_words id (end - sum_of lengths.now) lengths.now ++ drop sp env.old) }
{
    let mut start = end;
    let mut top = sp;
    for i in (0..lengths.len()).rev() {
        let n = lengths[i];
        start -= n;
        top -= 3;
        put_place(env, top, id + i, start, n);
    }
    top
}
