// Flags are written here.
ghost use Rattle.std.specs.Prelude.{◌≡◌, true, false, [], ◌∷◌, ◌++◌, map, ◌+◌, ◌<◌, length, replicate};
ghost use Rattle.std.proofs.lemmas.List.Edits.{sets};
ghost use Rattle.snesl.specs.Streams.{bit};

// n F's and a T, from `at` on.
pub fn put_segment(buf: &mut [i32], at: usize, n: usize)
    requires { at + n < length buf.old }
    ensures { buf.new ≡ sets buf.old at (map bit (replicate n false ++ true ∷ [])) }
{
    buf[at..at + n].fill(0);
    buf[at + n] = 1;
}
