// Reading words, numbers and signs at the front of what is left of a text, as the crate `grammar` defines it. A reader
// gives what it read with the bytes behind it. Assumes nothing.
#![tactic(auto, using(crate::proofs::Front::fronts))]

ghost use Rattle.std.specs.Prelude.{◌≡◌, ◌+◌, ◌-◌, ◌*◌, ◌^◌, ◌<◌, ◌≤◌, false, true, length, drop, IsSome, MatchOption};
ghost use Rattle.std.specs.List.{prefix_len, take_while};
ghost use Rattle.std.specs.Char.{is_ascii_alphanumeric};
ghost use Rattle.grammar.specs.Reading.{blank, is as is_here, starts_digit, starts_letter, is_the_word, skip as skip_of, digits as digits_of, number as number_of, limited as limited_of};
ghost use Rattle.tokens.specs.Says.{Reads, EndOf, Ends};

use crate::faults::Unexpected;
use grammar::refusals::Why;
use plans::stages::MOST_SPAN;

pub mod faults;

// What is left behind the white space.
pub fn skip(b: &[u8]) -> &[u8]
    ensures is { result.now ≡ skip_of b.now }
    ensures end { EndOf b.now result.now }
{
    let mut rest = b;
    while let [first, after @ ..] = rest
        && is_blank(*first)
    {
        rest = after;
    }
    rest
}

fn is_blank(c: u8) -> bool
    ensures { result ≡ blank c }
{
    matches!(c, b' ' | b'\t' | b'\n' | b'\r')
}

// What is behind the byte `c`, if it stands here.
#[tactic(auto, unfolding(grammar::specs::Reading::is))]
pub fn strip_sign(b: &[u8], c: u8) -> Option<&[u8]>
    ensures here { MatchOption result (is_here c b.now ≡ false) (λ r. (is_here c b.now ≡ true) × (r.now ≡ drop 1 b.now)) }
    ensures room { IsSome result → 1 ≤ length b.now }
{
    let (first, rest) = b.split_first()?;
    (*first == c).then_some(rest)
}

// Whether a digit stands here.
pub fn is_digit(b: &[u8]) -> bool
    ensures value { result ≡ starts_digit b.now }
    ensures room { result ≡ true → 1 ≤ length b.now }
{
    matches!(b, [b'0'..=b'9', ..])
}

fn is_letter(b: &[u8]) -> bool
    ensures { result ≡ starts_letter b.now }
{
    matches!(b, [b'a'..=b'z' | b'A'..=b'Z', ..])
}

// What is behind `word`, if it stands here, with neither a letter nor a digit right behind it.
#[tactic(auto, using(crate::proofs::Words::word_prefix))]
pub fn strip_word<'a>(b: &'a [u8], word: &[u8]) -> Option<&'a [u8]>
    ensures here { MatchOption result (is_the_word word.now b.now ≡ false) (λ r. (is_the_word word.now b.now ≡ true) × (r.now ≡ drop (length word.now) b.now)) }
    ensures room { IsSome result → length word.now ≤ length b.now }
{
    let rest = b.strip_prefix(word)?;
    if is_letter(rest) || is_digit(rest) {
        None
    } else {
        Some(rest)
    }
}

// The letters and digits that stand here, and what is behind them.
pub fn split_word(b: &[u8]) -> (&[u8], &[u8])
    ensures front { result.0.now ≡ take_while is_ascii_alphanumeric b.now }
    ensures behind { result.1.now ≡ drop (prefix_len is_ascii_alphanumeric b.now) b.now }
{
    b.split_at(word_len(b))
}

fn word_len(b: &[u8]) -> usize
    ensures value { result ≡ prefix_len is_ascii_alphanumeric b.now }
    ensures within { result ≤ length b.now }
{
    b.iter().take_while(|c| c.is_ascii_alphanumeric()).count()
}

// The number that a digit makes of those before it, below 2^64.
fn with_digit(n: u64, digit: u8) -> Option<u64>
    requires { 48 ≤ digit }
    ensures { MatchOption result (2 ^ 64 ≤ n * 10 + (digit - 48)) (λ m. (m ≡ n * 10 + (digit - 48)) × (m < 2 ^ 64)) }
{
    n.checked_mul(10)?.checked_add(u64::from(digit - b'0'))
}

// The number whose first digit stands here.
pub fn digits(b: &[u8]) -> Result<(u64, &[u8]), Unexpected>
    ensures reads { Reads (λ n. n) (digits_of b.now 0 b.now) result }
    ensures end { Ends b.now result }
{
    let mut n: u64 = 0;
    let mut rest = b;
    while let [digit @ b'0'..=b'9', after @ ..] = rest {
        n = with_digit(n, *digit).ok_or(Unexpected(Why::Large, b))?;
        rest = after;
    }
    if is_letter(rest) {
        return Err(Unexpected(Why::Joined, rest));
    }
    Ok((n, rest))
}

// The number behind white space.
#[tactic(auto, unfolding(grammar::specs::Reading::number))]
pub fn number(b: &[u8]) -> Result<(u64, &[u8]), Unexpected>
    ensures { Reads (λ n. n) (number_of b.now) result }
{
    let rest = skip(b);
    if is_digit(rest) {
        digits(rest)
    } else {
        Err(Unexpected(Why::Number, rest))
    }
}

// The number behind white space, from `low` to 2^40; `why` says what any other is refused for.
#[tactic(auto, using(crate::proofs::Front::in_range), unfolding(grammar::specs::Reading::limited, grammar::specs::Reading::after))]
pub fn limited(b: &[u8], low: u64, why: Why) -> Result<(u64, &[u8]), Unexpected>
    ensures reads { Reads (λ n. n) (limited_of why low b.now) result }
    ensures end { Ends b.now result }
{
    let (n, rest) = number(b)?;
    if (low..=MOST_SPAN).contains(&n) {
        Ok((n, rest))
    } else {
        Err(Unexpected(why, skip(b)))
    }
}
