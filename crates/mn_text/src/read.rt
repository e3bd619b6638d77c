ghost use Rattle.std.specs.Prelude.{◌≡◌, ◌≢◌, ◌||◌, ◌<◌, ◌≤◌, ◌*◌, ◌+◌, ◌^◌, ◌==◌, true, ok_or, IfOk, IfSome, MatchOption, option_map, position};
ghost use Rattle.std.specs.List.{list_all};
ghost use Rattle.std.specs.Char.{is_ascii_digit, digit_value};
ghost use Rattle.std.specs.Str.Parse.{digits_value};
ghost use Rattle.mn_base.specs.Numbers.{type_field, has_rd_form, has_rt_form};
ghost use Rattle.mn_text.specs.Numbers.{begins_well, is_number, number_of, number_text, number_up_to};
ghost use Rattle.mn_text.specs.Addresses.{cut, address_of, address_text, slashed_of, prefix_of, prefix_text};
ghost use Rattle.mn_text.specs.Pairs.{as_pair, address_pair, pair_of, pair_text, rd_of, rd_text, rt_of, rt_text};

use crate::TextBad;
use mn_base::{Rd, Rt};
use mn_prefix::Prefix;

/// The greatest value of a byte of an address.
const OCTET_MAX: u64 = 255;

/// The greatest length of a prefix.
const LENGTH_MAX: u64 = 32;

/// The greatest number of two bytes.
const TWO_BYTES_MAX: u64 = 65_535;

/// The greatest number of four bytes.
const FOUR_BYTES_MAX: u64 = 4_294_967_295;

/// One character, or several of which the first isn't `0`.
fn begins_well(word: &[u8]) -> bool
    ensures { result ≡ begins_well word.now }
{
    word.len() == 1 || (word.len() > 1 && word[0] != b'0')
}

fn all_digits(word: &[u8]) -> bool
    ensures { result ≡ list_all is_ascii_digit word.now }
{
    word.iter().all(|byte| byte.is_ascii_digit())
}

fn is_number(word: &[u8]) -> bool
    ensures { result ≡ is_number word.now }
{
    begins_well(word) && all_digits(word)
}

fn digit(byte: u8) -> u64
    requires { is_ascii_digit byte ≡ true }
    ensures { result ≡ digit_value byte }
{
    u64::from(byte - b'0')
}

/// The number that digits write, unless it takes more than 64 bits.
#[tactic(auto, using(crate::proofs::Numbers::one_more))]
fn value(digits: &[u8]) -> Option<u64>
    requires { list_all is_ascii_digit digits.now ≡ true }
    ensures { MatchOption result (2 ^ 64 ≤ digits_value 10 digits.now) (λ n. n ≡ digits_value 10 digits.now) }
{
    let mut value = 0u64;
    for byte in digits {
        let Some(tens) = value.checked_mul(10) else {
            return None;
        };
        let Some(sum) = tens.checked_add(digit(*byte)) else {
            return None;
        };
        value = sum;
    }
    Some(value)
}

/// A number of at most `most`. It is refused as `NotANumber`, and then as `TooGreat`.
#[tactic(auto, using(crate::proofs::Only::number_only))]
pub fn number(word: &[u8], most: u64) -> Result<u64, TextBad>
    ensures value { result ≡ number_of word.now most }
    ensures text { IfOk result (λ n. word.now ≡ number_text n) }
    ensures within { IfOk result (λ n. n ≤ most) }
{
    if !is_number(word) {
        return Err(TextBad::NotANumber);
    }
    match value(word) {
        Some(n) if n <= most => Ok(n),
        _ => Err(TextBad::TooGreat),
    }
}

/// A number of at most `most`, for readers that refuse the whole text for one reason.
pub fn number_up_to(word: &[u8], most: u64) -> Option<u64>
    ensures value { result ≡ number_up_to word.now most }
    ensures text { IfSome result (λ n. word.now ≡ number_text n) }
    ensures within { IfSome result (λ n. n ≤ most) }
{
    number(word, most).ok()
}

fn index_of(word: &[u8], byte: u8) -> Option<usize>
    ensures { result ≡ position (λ b. b == byte) word.now }
{
    word.iter().position(|found| *found == byte)
}

/// The part before the first such byte, and the part after it.
fn cut(word: &[u8], byte: u8) -> Option<(&[u8], &[u8])>
    ensures { option_map (λ p. (p.0.now, p.1.now)) result ≡ cut byte word.now }
{
    match index_of(word, byte) {
        Some(i) => Some((&word[..i], &word[i + 1..])),
        None => None,
    }
}

/// An address, for readers that refuse the whole text for one reason.
#[tactic(auto, unfolding(crate::specs::Addresses::address_of))]
pub fn address_of(word: &[u8]) -> Option<u32>
    ensures value { result ≡ address_of word.now }
    ensures text { IfSome result (λ a. word.now ≡ address_text a) }
{
    let (first, rest) = cut(word, b'.')?;
    let (second, rest) = cut(rest, b'.')?;
    let (third, fourth) = cut(rest, b'.')?;
    let first = number_up_to(first, OCTET_MAX)?;
    let second = number_up_to(second, OCTET_MAX)?;
    let third = number_up_to(third, OCTET_MAX)?;
    let fourth = number_up_to(fourth, OCTET_MAX)?;
    Some((((first * 256 + second) * 256 + third) * 256 + fourth) as u32)
}

/// An address. It is refused as `BadAddress`.
pub fn address(word: &[u8]) -> Result<u32, TextBad>
    ensures value { result ≡ ok_or (address_of word.now) TextBad.BadAddress }
    ensures text { IfOk result (λ a. word.now ≡ address_text a) }
{
    address_of(word).ok_or(TextBad::BadAddress)
}

/// An address and a length of at most 32, joined by a slash.
#[tactic(auto, unfolding(crate::specs::Addresses::slashed_of))]
fn slashed_of(word: &[u8]) -> Option<(u32, u8)>
    ensures value { option_map (λ p. record { address = p.0; length = p.1 }) result ≡ slashed_of word.now }
    ensures text { IfSome result (λ p. word.now ≡ prefix_text (record { address = p.0; length = p.1 })) }
    ensures short { IfSome result (λ p. p.1 ≤ 32) }
{
    let (front, back) = cut(word, b'/')?;
    let address = address_of(front)?;
    let length = number_up_to(back, LENGTH_MAX)?;
    Some((address, length as u8))
}

/// A prefix. It is refused as `BadPrefix`, and then as `HostBits`.
pub fn prefix(word: &[u8]) -> Result<Prefix, TextBad>
    ensures value { result ≡ prefix_of word.now }
    ensures text { IfOk result (λ p. word.now ≡ prefix_text p) }
{
    let Some((address, length)) = slashed_of(word) else {
        return Err(TextBad::BadPrefix);
    };
    Prefix::new(address, length).ok_or(TextBad::HostBits)
}

/// `AS:N` as six bytes.
fn as_pair(front: &[u8], back: &[u8]) -> Option<u64>
    ensures value { result ≡ as_pair front.now back.now }
    ensures fits { IfSome result (λ n. n < 2 ^ 48) }
{
    let as_number = number_up_to(front, TWO_BYTES_MAX)?;
    let number = number_up_to(back, FOUR_BYTES_MAX)?;
    Some((as_number << 32) + number)
}

/// `ADDRESS:N` as six bytes.
fn address_pair(front: &[u8], back: &[u8]) -> Option<u64>
    ensures value { result ≡ address_pair front.now back.now }
    ensures fits { IfSome result (λ n. n < 2 ^ 48) }
{
    let address = address_of(front)?;
    let number = number_up_to(back, TWO_BYTES_MAX)?;
    Some((u64::from(address) << 16) + number)
}

/// A pair as eight bytes, of which the first two are the type for its form.
#[tactic(auto, using(crate::proofs::Only::pair_kind_only), unfolding(crate::specs::Pairs::pair_of))]
fn pair_of(word: &[u8], by_as: u64, by_address: u64) -> Option<u64>
    requires as_fits { by_as < 2 ^ 16 }
    requires address_fits { by_address < 2 ^ 16 }
    requires apart { by_as ≢ by_address }
    ensures value { result ≡ pair_of by_as by_address word.now }
    ensures text { IfSome result (λ n. word.now ≡ pair_text by_address n) }
    ensures form { IfSome result (λ n. (type_field n == by_as || type_field n == by_address) ≡ true) }
{
    let (front, back) = cut(word, b':')?;
    match as_pair(front, back) {
        Some(six_bytes) => Some((by_as << 48) + six_bytes),
        None => {
            let six_bytes = address_pair(front, back)?;
            Some((by_address << 48) + six_bytes)
        }
    }
}

/// A route distinguisher. It is refused as `BadPair`.
pub fn rd(word: &[u8]) -> Result<Rd, TextBad>
    ensures value { result ≡ ok_or (rd_of word.now) TextBad.BadPair }
    ensures text { IfOk result (λ rd. word.now ≡ rd_text rd) }
    ensures form { IfOk result (λ rd. has_rd_form rd.0 ≡ true) }
{
    match pair_of(word, Rd::BY_AS, Rd::BY_ADDRESS) {
        Some(eight_bytes) => Ok(Rd(eight_bytes)),
        None => Err(TextBad::BadPair),
    }
}

/// A route target. It is refused as `BadPair`.
pub fn rt(word: &[u8]) -> Result<Rt, TextBad>
    ensures value { result ≡ ok_or (rt_of word.now) TextBad.BadPair }
    ensures text { IfOk result (λ target. word.now ≡ rt_text target) }
    ensures form { IfOk result (λ target. has_rt_form target.0 ≡ true) }
{
    match pair_of(word, Rt::BY_AS, Rt::BY_ADDRESS) {
        Some(eight_bytes) => Ok(Rt(eight_bytes)),
        None => Err(TextBad::BadPair),
    }
}
