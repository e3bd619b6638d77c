// Words and numbers, laid over bytes.
ghost use Rattle.std.specs.Prelude.{◌≡◌, ◌+◌, ◌<◌, ◌≤◌, ◌++◌, length, take};
ghost use Rattle.std.specs.Fmt.{decimal};

use itoa::write_digits;

/// Copies a piece over bytes from a place on, and answers where it ends.
#[inline(always)]
pub fn lay(bytes: &mut [u8], at: usize, piece: &[u8]) -> usize
    requires { at + length piece.now ≤ length bytes.old }
    ensures end { result ≡ at + length piece.now }
    ensures laid { take result bytes.new ≡ take at bytes.old ++ piece.now }
{
    let end = at + piece.len();
    bytes[at..end].copy_from_slice(piece);
    end
}

/// Copies a name. Most are short, and a copy of known length is less work than a call.
#[inline(always)]
pub fn lay_name(bytes: &mut [u8], at: usize, name: &[u8]) -> usize
    requires { at + length name.now ≤ length bytes.old }
    ensures end { result ≡ at + length name.now }
    ensures laid { take result bytes.new ≡ take at bytes.old ++ name.now }
{
    if let Some(name) = name.as_array::<1>() {
        return lay(bytes, at, name);
    }
    if let Some(name) = name.as_array::<2>() {
        return lay(bytes, at, name);
    }
    if let Some(name) = name.as_array::<3>() {
        return lay(bytes, at, name);
    }
    lay(bytes, at, name)
}

/// How many digits a number has.
#[inline(never)]
fn many_digits(number: u64) -> usize
    requires { 1000000 ≤ number }
    ensures { result ≡ length (decimal number) }
{
    let mut left = number;
    let mut count = 0;
    while left >= 10 {
        left /= 10;
        count += 1;
    }
    count + 1
}

/// How many digits a number has. Most have few.
#[inline(always)]
fn digits_of(number: u64) -> usize
    ensures { result ≡ length (decimal number) }
{
    if number < 10 {
        1
    } else if number < 100 {
        2
    } else if number < 1_000 {
        3
    } else if number < 10_000 {
        4
    } else if number < 100_000 {
        5
    } else if number < 1_000_000 {
        6
    } else {
        many_digits(number)
    }
}

/// Writes a number's digits from a place on, and answers where they end.
#[inline(always)]
pub fn lay_number(bytes: &mut [u8], at: usize, number: u64) -> usize
    requires { at + 20 ≤ length bytes.old }
    ensures most { result ≤ at + 20 }
    ensures laid { take result bytes.new ≡ take at bytes.old ++ decimal number }
{
    let end = at + digits_of(number);
    write_digits(number, bytes, end);
    end
}
