// Flags are read here.
ghost use Rattle.std.specs.Prelude.{◌≡◌, false, ◌+◌, ◌<◌, pos, length, drop, get_or};
ghost use Rattle.snesl.specs.Transducers.{flag_of};
ghost use Rattle.flags.specs.Segments.{leading, wholes};
ghost use Rattle.flags.specs.Flags.{found};

// One flag, T as true; an element may be none.
pub fn flag_at(buf: &[i32], at: usize) -> Option<bool>
    requires { at < length buf.now }
    ensures { result ≡ found (flag_of (get_or buf.now at (pos 0))) }
{
    match buf[at] {
        0 => Some(false),
        1 => Some(true),
        _ => None,
    }
}

// How many whole segments the flags are; none where the last T is missing, or an element is no flag. No flag ends the loop, so that it goes over
// many at once.
pub fn segments(flags: &[i32]) -> Option<usize>
    ensures { result ≡ found (wholes flag_of 0 false flags.now) }
{
    let mut ends = 0;
    let mut within = false;
    let mut clean = true;
    for &z in flags {
        if z == 1 {
            ends += 1;
            within = false;
        } else if z == 0 {
            within = true;
        } else {
            clean = false;
        }
    }
    if clean && !within { Some(ends) } else { None }
}

// How many F's the first segment has: its T is there, so no end of the flags is looked out for. (`position` looks out for it, and takes a sixth longer
// where segments are long.)
pub fn next_end(flags: &[i32]) -> usize
    requires { leading flag_of flags.now < length flags.now }
    ensures { result ≡ leading flag_of flags.now }
{
    let mut end = 0;
    loop {
        if flags[end] != 0 {
            return end;
        }
        end += 1;
    }
}

// The first segment off the flags: how many F's it has, and the flags behind its T.
pub fn next_segment(flags: &[i32]) -> (usize, &[i32])
    requires { leading flag_of flags.now < length flags.now }
    ensures count { result.0 ≡ leading flag_of flags.now }
    ensures rest { result.1.now ≡ drop (leading flag_of flags.now + 1) flags.now }
{
    let count = next_end(flags);
    (count, &flags[count + 1..])
}
