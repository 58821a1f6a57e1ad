// Runs of stores over the stream buffer.
ghost use Rattle.std.specs.Prelude.{◌≡◌, ◌-◌, ◌≤◌, pos, length, replicate};
ghost use Rattle.std.proofs.lemmas.List.Edits.{sets};
ghost use Rattle.laws.specs.Parts.{cleared};

// z from `from` up to `to`; nothing where `to` is not past `from`.
pub fn fill(buf: &mut [i32], from: usize, to: usize, z: i32)
    requires { to ≤ length buf.old }
    ensures { buf.new ≡ sets buf.old from (replicate (to - from) z) }
{
    if from < to {
        buf[from..to].fill(z);
    }
}

// Zeros from `from` to the end.
pub fn clear(buf: &mut [i32], from: usize)
    ensures { buf.new ≡ cleared (pos 0) from buf.old }
{
    if from < buf.len() {
        buf[from..].fill(0);
    }
}
