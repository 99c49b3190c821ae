// The words that every layer shares: refusals, N-Chars, tokens. Each stands here once.
#![tactic(auto)]

ghost use Rattle.std.specs.Prelude.{◌≡◌, Ok, Err};
ghost use Rattle.vocabulary.specs.Choice.{pick};
ghost use Rattle.vocabulary.specs.Refusals.{number};
ghost use Rattle.vocabulary.specs.NChars.{read_as, is_end, above_eep};
ghost use Rattle.vocabulary.specs.Tokens.{kind_of, value_of, bad_char};

// 01, The ten refusals, each under its number.
#[derive(Clone, Copy, Debug, PartialEq, Eq)]
pub enum Refusal {
    State = 1,
    Store,
    Port,
    Row,
    Char,
    Rounds,
    Stopped,
    NotRun,
    Empty,
    Full,
}

impl From<Refusal> for u32 {
    ghost from_gives = { λ refusal n. n ≡ number refusal };

    fn from(refusal: Refusal) -> u32 {
        refusal as u32
    }
}

// 01, Characters on the wire: what stores hold for the two ends of a packet.
pub const EOP: u16 = 256;

pub const EEP: u16 = 257;

// One of the four things that go over a link.
#[derive(Clone, Copy, Debug, PartialEq, Eq)]
pub enum Token {
    Null,
    Fct,
    NChar(u16),
    TimeCode(u8),
}

// A test that a call makes: `refuse(applies, Refusal::Port)?` goes on where it does not apply.
pub fn refuse(applies: bool, refusal: Refusal) -> Result<(), Refusal>
    ensures { result ≡ pick applies (Err refusal) (Ok tt) }
{
    if applies { Err(refusal) } else { Ok(()) }
}

// A stored number as it is read: 258 and above are an EEP.
pub fn read_as(stored: u16) -> u16
    ensures { result ≡ read_as stored }
{
    if 257 < stored { 257 } else { stored }
}

// Whether a stored number ends a packet.
pub fn is_end(stored: u16) -> bool
    ensures { result ≡ is_end stored }
{
    256 <= stored
}

// Whether a number is no N-Char.
pub fn above_eep(number: u16) -> bool
    ensures { result ≡ above_eep number }
{
    257 < number
}

// Whether a token is an N-Char above 257.
pub fn bad_char(t: Token) -> bool
    ensures { result ≡ bad_char t }
{
    match t {
        Token::NChar(n) => above_eep(n),
        Token::Null | Token::Fct | Token::TimeCode(_) => false,
    }
}

// A token's number: NULL 1, FCT 2, N-Char 3, Time-Code 4. Number and value are functions and no `From`: each leaves the other out.
pub fn kind(t: Token) -> u8
    ensures { result ≡ kind_of t }
{
    match t {
        Token::Null => 1,
        Token::Fct => 2,
        Token::NChar(_) => 3,
        Token::TimeCode(_) => 4,
    }
}

// What a token carries; 0 where it carries nothing.
pub fn value(t: Token) -> u16
    ensures { result ≡ value_of t }
{
    match t {
        Token::Null | Token::Fct => 0,
        Token::NChar(n) => n,
        Token::TimeCode(v) => u16::from(v),
    }
}
