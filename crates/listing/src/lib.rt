// The listing of a capture (01, The listing): ASCII bits in, one line of text for each report out.
#![tactic(auto)]

ghost use Rattle.std.specs.Prelude.{◌≡◌, true, ◌+◌, ◌<◌, ◌^◌, length};
ghost use Rattle.characters.specs.DecoderWords.{is_decoder};
ghost use Rattle.listing.specs.Input.{is_skipped, is_good, good};
ghost use Rattle.listing.specs.Listing.{Rendered};

use characters::decoder;
use characters::reports::Report;
use vocabulary::{EOP, Token};

// No listing is longer than this: a buffer of so many bytes holds any.
pub const ROOM: usize = 163874;

// No number in a listing has more digits.
const MOST_PLACES: usize = 5;

const MOST_BYTES: usize = 65536;

// Lines as far as they are written: the buffer, and where in it the next byte goes.
#[derive(Drop)]
struct Page<'a> {
    out: &'a mut [u8],
    at: usize,
}

impl Page<'_> {
    ghost use Rattle.std.specs.Prelude.{[], ◌∷◌};
    ghost use Rattle.vocabulary.specs.declared.Token as Token;
    ghost use Rattle.listing.specs.Decimal.{digit, decimal_in};
    ghost use Rattle.listing.specs.Text.{value_line, token_text, report_text, line_text};
    ghost use Rattle.listing.specs.Listing.{all_lines, listing};
    ghost use Rattle.listing.specs.Writing.{Room, Puts};

    #[tactic(auto, using(crate::proofs::WritingLaws::part_written, crate::proofs::WritingLaws::part_length))]
    fn put(&mut self, text: &[u8])
        requires { Room self.old text.now }
        ensures { Puts self.old text.now self.new }
    {
        let end = self.at + text.len();
        self.out[self.at..end].copy_from_slice(text);
        self.at = end;
    }

    fn put_digit(&mut self, d: usize)
        requires room { Room self.old (digit d ∷ []) }
        requires d_bound { d < 10 }
        ensures { Puts self.old (digit d ∷ []) self.new }
    {
        self.put(&[b'0' + d as u8]);
    }

    // At most so many places are written. By hand, since the library's `write!` is no plainer here: it needs a writer that
    // may fail, and writes every place.
    fn put_number(&mut self, places: usize, n: usize)
        requires { Room self.old (decimal_in places n) }
        ensures { Puts self.old (decimal_in places n) self.new }
    {
        if 0 < places {
            if n < 10 {
                self.put_digit(n);
            } else {
                self.put_number(places - 1, n / 10);
                self.put_digit(n % 10);
            }
        }
    }

    // A word, a number and the end of the line.
    fn put_value(&mut self, word: &[u8], n: usize)
        requires { Room self.old (value_line word.now n) }
        ensures { Puts self.old (value_line word.now n) self.new }
    {
        self.put(word);
        self.put_number(MOST_PLACES, n);
        self.put(b"\n");
    }

    fn put_n_char(&mut self, n: u16)
        requires { Room self.old (token_text (Token.NChar n)) }
        ensures { Puts self.old (token_text (Token.NChar n)) self.new }
    {
        match n {
            0..EOP => self.put_value(b"DATA ", usize::from(n)),
            EOP => self.put(b"EOP\n"),
            _ => self.put(b"EEP\n"),
        }
    }

    fn put_token(&mut self, token: Token)
        requires { Room self.old (token_text token) }
        ensures { Puts self.old (token_text token) self.new }
    {
        match token {
            Token::Null => self.put(b"NULL\n"),
            Token::Fct => self.put(b"FCT\n"),
            Token::NChar(n) => self.put_n_char(n),
            Token::TimeCode(value) => self.put_value(b"TIME ", usize::from(value)),
        }
    }

    // A disconnect has no line.
    fn put_report(&mut self, report: Report)
        requires { Room self.old (report_text report) }
        ensures { Puts self.old (report_text report) self.new }
    {
        match report {
            Report::Got(token) => self.put_token(token),
            Report::ParityError => self.put(b"PARITY\n"),
            Report::EscapeError => self.put(b"ESCAPE\n"),
            Report::Disconnect => {}
        }
    }

    fn put_line(&mut self, number: usize, report: Report)
        requires { Room self.old (line_text number report) }
        ensures { Puts self.old (line_text number report) self.new }
    {
        self.put_number(MOST_PLACES, number);
        self.put(b" ");
        self.put_report(report);
    }

    // The lines of the bits before the first bad byte, and the last line.
    fn put_lines(&mut self, input: &[u8])
        requires { Room self.old (all_lines input.now) }
        ensures { Puts self.old (all_lines input.now) self.new }
    {
        let end = good_length(input);
        let mut listing = Listing::fresh();
        listing.take_bytes(self, &input[..end]);
        if end < input.len() {
            self.put_value(b"BAD ", end);
        } else {
            self.put_value(b"END ", listing.count);
        }
    }

    // The whole listing of an input.
    #[tactic(auto, using(crate::proofs::ListingLaws::too_long, crate::proofs::ListingLaws::not_too_long))]
    fn put_all(&mut self, input: &[u8])
        requires { Room self.old (listing input.now) }
        ensures { Puts self.old (listing input.now) self.new }
    {
        if MOST_BYTES < input.len() {
            self.put(b"LONG\n");
        } else {
            self.put_lines(input);
        }
    }
}

// A listing as far as its bits have been taken: the decoder, and the count of bits.
#[derive(Drop)]
struct Listing {
    words: decoder::Words,
    count: usize,
    ghost decodes: { is_decoder words ≡ true },
}

impl Listing {
    ghost use Rattle.std.specs.Prelude.{[], ◌∷◌};
    ghost use Rattle.listing.specs.Input.{bit_of, bits_in};
    ghost use Rattle.listing.specs.Writing.{Room, start, meant, more_text, Goes};

    fn fresh() -> Listing
        ensures { meant result ≡ start }
    {
        let mut words = [0u32; decoder::WORDS];
        decoder::fresh(&mut words);
        Listing { words, count: 0 }
    }

    // A decoder that has stopped refuses the bit, which is only counted.
    fn take_bit(&mut self, page: &mut Page, b: bool)
        requires room { Room page.old (more_text (meant self.old) (b ∷ [])) }
        requires count_bound { self.old.count + 1 < 2 ^ 64 }
        ensures { Goes self.old page.old (b ∷ []) self.new page.new }
    {
        let reported = decoder::bit(&mut self.words, u32::from(b)).unwrap_or(None);
        self.count += 1;
        if let Some(report) = reported {
            page.put_line(self.count, report);
        }
    }

    fn take_byte(&mut self, page: &mut Page, byte: u8)
        requires room { Room page.old (more_text (meant self.old) (bit_of byte)) }
        requires count_bound { self.old.count + 1 < 2 ^ 64 }
        ensures { Goes self.old page.old (bit_of byte) self.new page.new }
    {
        match byte {
            b'0' => self.take_bit(page, false),
            b'1' => self.take_bit(page, true),
            _ => {}
        }
    }

    fn take_bytes(&mut self, page: &mut Page, bytes: &[u8])
        requires room { Room page.old (more_text (meant self.old) (bits_in bytes.now)) }
        requires count_value { self.old.count ≡ 0 }
        ensures { Goes self.old page.old (bits_in bytes.now) self.new page.new }
    {
        for &byte in bytes {
            self.take_byte(page, byte);
        }
    }
}

fn is_skipped(byte: u8) -> bool
    ensures { result ≡ is_skipped byte }
{
    matches!(byte, b' ' | b'\n' | b'\r')
}

fn is_good(byte: u8) -> bool
    ensures { result ≡ is_good byte }
{
    matches!(byte, b'0' | b'1') || is_skipped(byte)
}

// The offset of the first bad byte, or the length where none is bad.
fn good_length(input: &[u8]) -> usize
    ensures { result ≡ length (good input.now) }
{
    input
        .iter()
        .position(|&byte| !is_good(byte))
        .unwrap_or(input.len())
}

// The listing of `input` at the start of `out`, and its length. None where `out` has fewer than `ROOM` bytes.
// `render(b"01110100", &mut out)` answers `Some(13)`, and the buffer begins "8 NULL\nEND 8\n".
pub fn render(input: &[u8], out: &mut [u8]) -> Option<usize>
    ensures { Rendered input.now out.old result out.new }
{
    if out.len() < ROOM {
        return None;
    }
    let mut page = Page { out, at: 0 };
    page.put_all(input);
    Some(page.at)
}
