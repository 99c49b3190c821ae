// Truths, numbers and tokens as words of 32 bits.
#![tactic(auto)]

ghost use Rattle.std.specs.Prelude.{◌≡◌, true, false, replicate};
ghost use Rattle.vocabulary.specs.Refusals.{refusal_in, answer_in};
ghost use Rattle.vocabulary.specs.Tokens.{bad_char};
ghost use Rattle.vocabulary.specs.declared.Token.TheVariants.{NChar};
ghost use Rattle.words.specs.Words.{truth, truth_word, byte, narrow};
ghost use Rattle.words.specs.Arguments.{fitted, bare, time_code, token_of, named};

use vocabulary::{Refusal, Token};

// C's truth: 0 is false, anything else true. The library has no such conversion, and `truth_word` is the library's under the name
// of its definition.
pub fn truth(word: u32) -> bool
    ensures { result ≡ truth word }
{
    word != 0
}

pub fn truth_word(b: bool) -> u32
    ensures { result ≡ truth_word b }
{
    u32::from(b)
}

// What does not fit is cut off here, and in `narrow`: `TryFrom` would refuse it.
pub fn byte(word: u32) -> u8
    ensures { result ≡ byte word }
{
    (word % 256) as u8
}

pub fn narrow(n: usize) -> u32
    ensures { result ≡ narrow n }
{
    (n % 4294967296) as u32
}

// A number in 16 bits, the largest where it does not fit.
pub fn fitted(n: u32) -> u16
    ensures { result ≡ fitted n }
{
    u16::try_from(n).unwrap_or(u16::MAX)
}

// NULL or FCT, which come without a value.
#[inline(always)]
fn bare(t: Token, value: u32) -> Result<Token, Refusal>
    ensures { bad_char t ≡ false → result ≡ named (bare t value) }
{
    vocabulary::refuse(value != 0, Refusal::Char)?;
    Ok(t)
}

#[inline(always)]
fn n_char(value: u32) -> Result<Token, Refusal>
    ensures { result ≡ named (NChar (fitted value)) }
{
    let n = fitted(value);
    vocabulary::refuse(vocabulary::above_eep(n), Refusal::Char)?;
    Ok(Token::NChar(n))
}

#[inline(always)]
fn time_code(value: u32) -> Result<Token, Refusal>
    ensures { result ≡ named (time_code value) }
{
    match u8::try_from(value) {
        Ok(code) => Ok(Token::TimeCode(code)),
        Err(_) => Err(Refusal::Char),
    }
}

// The token with this number and value: `named_token(3, 65)` is the data character 65. No other pair names one: CHAR.
#[tactic(auto, unfolding(crate::specs::Arguments::token_of))]
pub fn named_token(kind: u32, value: u32) -> Result<Token, Refusal>
    ensures { result ≡ named (token_of kind value) }
{
    match kind {
        1 => bare(Token::Null, value),
        2 => bare(Token::Fct, value),
        3 => n_char(value),
        4 => time_code(value),
        _ => Err(Refusal::Char),
    }
}

// What a number and a value are that name no token: the N-Char as it is read, or one that is none.
#[tactic(auto, unfolding(crate::specs::Arguments::token_of))]
fn unnamed(kind: u32, value: u32) -> Token
    ensures { bad_char (token_of kind value) ≡ true → result ≡ token_of kind value }
{
    match kind {
        3 => Token::NChar(fitted(value)),
        _ => Token::NChar(u16::MAX),
    }
}

// The same for any number and value: a pair that names no token is an N-Char above 257, which every call refuses as CHAR.
pub fn token_of(kind: u32, value: u32) -> Token
    ensures { result ≡ token_of kind value }
{
    match named_token(kind, value) {
        Ok(token) => token,
        Err(_) => unnamed(kind, value),
    }
}

// What a call answers, as C takes it: the refusal's number, and in `out` the other answers, zeros where it is refused.
pub fn answer<const N: usize>(answered: Result<[u32; N], Refusal>, out: &mut [u32; N]) -> u32
    ensures { (result ≡ refusal_in answered.entry) × (out.new ≡ answer_in (replicate N 0) answered.entry) }
{
    match answered {
        Ok(words) => {
            *out = words;
            0
        }
        Err(refusal) => {
            out.fill(0);
            u32::from(refusal)
        }
    }
}
