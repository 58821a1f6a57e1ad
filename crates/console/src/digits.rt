// Bytes written as pairs of hexadecimal digits, as the test programs read them.
ghost use Rattle.std.specs.Prelude.{ℕ, ◌≡◌, ◌<◌, ◌≤◌, ◌*◌, ◌/◌, min, length, drop, slice_index};
ghost use Rattle.console.specs.Digits.{digit_of, pair_of};

// What a digit counts, and 0 for anything else.
pub fn digit(c: u8) -> u8
    ensures value { result ≡ digit_of c }
    ensures small { result ≤ 15 }
{
    match c {
        b'0'..=b'9' => c - b'0',
        b'a'..=b'f' => c - b'a' + 10,
        _ => 0,
    }
}

// The bytes that pairs of digits make, as many as there are or there is room for.
pub fn decode(digits: &[u8], out: &mut [u8]) -> usize
    ensures count { result ≡ min (length out.old) (length digits.now / 2) }
    ensures decoded { (i : ℕ) → i < result → slice_index out.new i ≡ pair_of digits.now i }
    ensures rest { drop result out.new ≡ drop result out.old }
{
    let n = out.len().min(digits.len() / 2);
    for i in 0..n {
        out[i] = digit(digits[2 * i]) * 16 + digit(digits[2 * i + 1]);
    }
    n
}
