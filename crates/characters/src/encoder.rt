// Tokens to bits (01, Characters on the wire, Encoder), in place on the word of an encoder.
ghost use Rattle.std.specs.Prelude.{◌≡◌, Ok, Err};
ghost use Rattle.vocabulary.specs.Choice.{pick};
ghost use Rattle.vocabulary.specs.Refusals.{STATE, refusal_in, answer_in};
ghost use Rattle.vocabulary.specs.declared.Token.TheVariants.{NChar};
ghost use Rattle.characters.specs.Encoder.{fresh_encoder};
ghost use Rattle.characters.specs.EncoderWords.{encoder_words, encoder_of, is_encoder, encode_left, bits_words, nothing_encoded};
ghost use Rattle.characters.specs.EncoderWords.{Sends};

use crate::bits;
use vocabulary::{EOP, Refusal, Token};

pub const WORDS: usize = 1;

pub type Words = [u32; WORDS];

// The bits of a token, the first sent least significant, and their count.
#[derive(Clone, Copy, Debug, PartialEq, Eq)]
pub struct Bits {
    pub bits: u32,
    pub count: u32,
}

#[tactic(auto, unfolding(crate::specs::Encoder::fresh_encoder))]
pub fn fresh(words: &mut Words)
    ensures { words.new ≡ encoder_words fresh_encoder }
{
    *words = [0];
}

impl From<Bits> for [u32; 2] {
    ghost from_gives = { λ bits words. words ≡ bits_words bits };

    fn from(bits: Bits) -> [u32; 2] {
        [bits.bits, bits.count]
    }
}

// Whether the ones in the last body are odd in number: 1 or 0, and any other word is refused.
fn last_odd(words: Words) -> Result<bool, Refusal>
    ensures { result ≡ pick (is_encoder words) (Ok (encoder_of words).odd) (Err STATE) }
{
    match words {
        [0] => Ok(false),
        [1] => Ok(true),
        _ => Err(Refusal::State),
    }
}

// The parity bit is least significant, the flag next, then the body.
fn n_char(odd: bool, n: u16) -> (bool, Bits)
    ensures { Sends odd (NChar n) result.0 result.1 }
{
    let p = words::truth_word(odd);
    match u8::try_from(n) {
        Ok(v) => (
            bits::odd_ones(v),
            Bits {
                bits: 1 - p + 4 * u32::from(v),
                count: 10,
            },
        ),
        Err(_) => {
            let bits = if n == EOP { p + 10 } else { p + 6 };
            (true, Bits { bits, count: 4 })
        }
    }
}

// Whether the ones in the token's last body are odd, and its bits. A Time-Code is an ESC, then the value as data.
fn sent(odd: bool, token: Token) -> (bool, Bits)
    ensures { Sends odd token result.0 result.1 }
{
    let p = words::truth_word(odd);
    match token {
        Token::Null => (
            false,
            Bits {
                bits: p + 46,
                count: 8,
            },
        ),
        Token::Fct => (
            false,
            Bits {
                bits: p + 2,
                count: 4,
            },
        ),
        Token::NChar(n) => n_char(odd, n),
        Token::TimeCode(v) => (
            bits::odd_ones(v),
            Bits {
                bits: p + 30 + 64 * u32::from(v),
                count: 14,
            },
        ),
    }
}

// The token with this number and value, any words that C hands in, as bits. From fresh, 2 and 0, FCT, give the four bits
// 0100, as the number 2.
pub fn encode(words: &mut Words, kind: u32, value: u32) -> Result<Bits, Refusal>
    ensures { record { refusal = refusal_in result; state = words.new; out = bits_words (answer_in nothing_encoded result) }
        ≡ encode_left words.old kind value }
{
    let last = last_odd(*words)?;
    let token = words::named_token(kind, value)?;
    let (odd, bits) = sent(last, token);
    *words = [words::truth_word(odd)];
    Ok(bits)
}
