// Whole numbers as text: reading one from the front of a text, and writing one at a position of a text.
ghost use Rattle.std.specs.Prelude.{◌≡◌, ◌+◌, ◌^◌, ◌<◌, ◌≤◌, [], ◌∷◌, length, slice_index};
ghost use Rattle.snesl.specs.Text.{show_number, show_int};
ghost use Rattle.decimals.specs.Numbers.{digit_at, digits_at, int_at, Sure};
ghost use Rattle.decimals.specs.Writing.{Writes};

// The byte at a place, 0 past the end.
pub fn byte_at(text: &[u8], i: usize) -> u8
    ensures { result ≡ slice_index text.now i }
{
    text.get(i).copied().unwrap_or(0)
}

// The digit at a place, if one stands there.
fn digit_at(text: &[u8], i: usize) -> Option<u64>
    ensures { result ≡ digit_at text.now i }
{
    let d = u64::from(byte_at(text, i)).wrapping_sub(48);
    (d <= 9).then_some(d)
}

// Some digits without a leading zero, that make at most 2,147,483,648: the number, and how many they are. The last of them is known by what stands behind it, a
// byte or none, so a count beside a `while let` is plainer than a `for` with a way out for each.
fn read_digits(text: &[u8]) -> Option<(u64, usize)>
    ensures { result ≡ digits_at text.now }
{
    let mut n: u64 = 0;
    let mut i: usize = 0;
    while let Some(d) = digit_at(text, i) {
        n = n * 10 + d;
        if n > 2_147_483_648 {
            return None;
        }
        i += 1;
    }
    if i == 0 {
        return None;
    }
    if i > 1 && text[0] == b'0' {
        return None;
    }
    Some((n, i))
}

// An int and the bytes it takes: optional minus, digits, no leading zero, no minus zero, in range.
pub fn read_int(text: &[u8]) -> Option<(i32, usize)>
    ensures { result ≡ int_at text.now }
{
    match text {
        [b'-', digits @ ..] => {
            let (n, k) = read_digits(digits)?;
            if n == 0 {
                return None;
            }
            Some((-(n as i64) as i32, k + 1))
        }
        _ => {
            let (n, k) = read_digits(text)?;
            Some((i32::try_from(n).ok()?, k))
        }
    }
}

// One to nine digits, the first no zero, and a byte behind them: they are in range whatever they are, so none is tested for it. Any other int may be found
// by `read_int`.
fn few_digits(text: &[u8]) -> Option<(i32, usize)>
    ensures { Sure text.now result }
{
    let mut n = match byte_at(text, 0) {
        b @ b'1'..=b'9' => u64::from(b - b'0'),
        _ => return None,
    };
    for i in 1..text.len().min(10) {
        let Some(d) = digit_at(text, i) else {
            return Some((n as i32, i));
        };
        n = n * 10 + d;
    }
    None
}

// What `read_int` answers, sooner for a short int that stands in a list.
pub fn quick_int(text: &[u8]) -> Option<(i32, usize)>
    ensures { result ≡ int_at text.now }
{
    few_digits(text).or_else(|| read_int(text))
}

// One byte at a position, if it lies within the buffer; answers the next position.
pub fn put(buf: &mut [u8], at: usize, b: u8) -> usize
    requires { at + 1 < 2 ^ 64 }
    ensures { Writes buf.old buf.new at (b ∷ []) result }
{
    if at < buf.len() {
        buf[at] = b;
    }
    at + 1
}

// How many digits a number has. (The kit's u64 has no `ilog10`.)
fn width(n: u64) -> usize
    ensures { (result ≡ length (show_number n)) × (result ≤ 20) }
{
    let mut m = n;
    let mut k: usize = 1;
    while m >= 10 {
        m /= 10;
        k += 1;
    }
    k
}

// A number at a position, last digit first, where it lies within the buffer; answers the position behind it.
pub fn write_number(buf: &mut [u8], at: usize, n: u64) -> usize
    requires { at < 2 ^ 32 }
    ensures { Writes buf.old buf.new at (show_number n) result }
{
    let end = at + width(n);
    let mut m = n;
    for p in (at..end).rev() {
        put(buf, p, b'0' + (m % 10) as u8);
        m /= 10;
    }
    end
}

// An int at a position, as `write_number` writes a number.
pub fn write_int(buf: &mut [u8], at: usize, z: i32) -> usize
    requires { at + 1 < 2 ^ 32 }
    ensures { Writes buf.old buf.new at (show_int z) result }
{
    let size = u64::from(z.unsigned_abs());
    if z < 0 {
        let next = put(buf, at, b'-');
        write_number(buf, next, size)
    } else {
        write_number(buf, at, size)
    }
}
