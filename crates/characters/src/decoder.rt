// Bits to reports (01, Characters on the wire, Decoder), in place on the words of a decoder.
ghost use Rattle.std.specs.Prelude.{ℕ, ◌<◌, ◌≡◌, Bool, false, [], ◌∷◌, None, Some};
ghost use Rattle.vocabulary.specs.Refusals.{refusal_in, answer_in};
ghost use Rattle.words.specs.Words.{truth_word};
ghost use Rattle.characters.specs.declared.reports.Waiting.{Waiting};
ghost use Rattle.characters.specs.Reports.{report_words};
ghost use Rattle.characters.specs.States.{Phase as InPhase, Decoder, Fresh, Heard, Between, Parity, Data, Second};
ghost use Rattle.characters.specs.Decoder.{stops, shifted, hunts, body_odd, body_of, closes, plain, silence};
ghost use Rattle.characters.specs.Refusals.{bad_waiting};
ghost use Rattle.characters.specs.DecoderWords.{decoder_words, phase_words, phase_number, waiting_number, waiting_value};
ghost use Rattle.characters.specs.DecoderWords.{FitsWaiting, Made, Takes, bit_left, tick_left};

use crate::phases::Phase;
use crate::reports::{Report, Waiting};
use crate::{bits, good_words};
use vocabulary::{EEP, EOP, Refusal, Token};

// A decoder is so many words. C owns them (`neftolek_decoder_bit` and its fellows), so they are an array and no struct with
// an enum: what stands where is said here, and a call writes only the words that change.
pub const WORDS: usize = 7;

pub type Words = [u32; WORDS];

pub(crate) const PHASE: usize = 0;

// The ticks since the last bit.
pub(crate) const SILENT: usize = 1;

// The number and the value of what waits.
pub(crate) const WAITS: usize = 2;

pub(crate) const VALUE: usize = 3;

// Whether an ESC came before.
pub(crate) const ESCAPE: usize = 4;

// The parity bit, or the first bit of a control body.
pub(crate) const FIRST: usize = 5;

// The eight places for bits.
pub(crate) const PLACES: usize = 6;

// What waits has the number of its token, or is nothing, or an ESC.
pub(crate) const ESC: u32 = 5;

// The eight bits 01110100, and the eight places before the first bit.
pub(crate) const HUNTED_FOR: u32 = 46;

const NO_BITS: u32 = 255;

// The places before the first data bit: a mark, which has come to the bottom when seven bits have come.
const NO_DATA: u32 = 128;

// The ticks that a silence lasts at most: one more disconnects.
pub(crate) const MOST_SILENT: u32 = 8;

pub fn fresh(words: &mut Words)
    ensures { words.new ≡ decoder_words Fresh }
{
    *words = [Phase::Fresh as u32, 0, 0, 0, 0, 0, 0];
}

// After an error: it is reported, and nothing is heard from then on.
#[tactic(auto, unfolding(crate::specs::Decoder::stops))]
fn stop(words: &mut Words, error: Report) -> Option<Report>
    ensures { Made (stops (Some error)) words.new result }
{
    *words = [Phase::Stopped as u32, 0, 0, 0, 0, 0, 0];
    Some(error)
}

// The next character begins; this much of the last waits. It and `waiting` are no `From`: what waits is two words among the
// seven, and no type of its own.
fn between(waiting: Waiting) -> Words
    ensures { result ≡ phase_words (Between waiting) 0 }
{
    let (number, value) = match waiting {
        Waiting::Reported => (0, 0),
        Waiting::Whole(token) => (
            u32::from(vocabulary::kind(token)),
            u32::from(vocabulary::value(token)),
        ),
        Waiting::Esc => (ESC, 0),
    };
    [Phase::Between as u32, 0, number, value, 0, 0, 0]
}

fn shift(places: u32, b: bool) -> u32
    ensures { result ≡ shifted places b }
{
    if b { places / 2 + 128 } else { places / 2 }
}

// Each of these takes a bit in its phase.
#[tactic(auto, unfolding(crate::specs::Decoder::hunts, crate::specs::Decoder::goes_on))]
fn hunt(words: &mut Words, places: u32, b: bool) -> Option<Report>
    ensures { (k s p : ℕ) → words.old ≡ k ∷ s ∷ 0 ∷ 0 ∷ 0 ∷ 0 ∷ p ∷ [] →
        Made (hunts places b) words.new result }
{
    let next = shift(places, b);
    if next == HUNTED_FOR {
        *words = between(Waiting::Reported);
        Some(Report::Got(Token::Null))
    } else {
        words[PHASE] = Phase::Hunting as u32;
        words[SILENT] = 0;
        words[PLACES] = next;
        None
    }
}

// A parity bit, or the first bit of a control body: it is kept, and the next phase is this one.
fn keep_bit(words: &mut Words, next: Phase, b: bool) -> Option<Report>
    ensures { (k s n v e f p : ℕ) (d : Decoder) →
        decoder_words d ≡ phase_number next ∷ 0 ∷ n ∷ v ∷ e ∷ truth_word b ∷ p ∷ [] →
        words.old ≡ k ∷ s ∷ n ∷ v ∷ e ∷ f ∷ p ∷ [] →
        Made (record { decoder = d; report = None }) words.new result }
{
    words[PHASE] = next as u32;
    words[SILENT] = 0;
    words[FIRST] = words::truth_word(b);
    None
}

// What waits, of the words of a decoder.
fn waiting(number: u32, value: u32) -> Waiting
    ensures { (w : Waiting) → FitsWaiting w → bad_waiting w ≡ false →
        number ≡ waiting_number w → value ≡ waiting_value w → result ≡ w }
{
    match words::named_token(number, value) {
        Ok(token) => Waiting::Whole(token),
        Err(_) => {
            if number == ESC {
                Waiting::Esc
            } else {
                Waiting::Reported
            }
        }
    }
}

fn body_odd(waiting: Waiting) -> bool
    ensures { result ≡ body_odd waiting }
{
    match waiting {
        Waiting::Whole(Token::NChar(n)) => bits::odd_n_char(n),
        Waiting::Whole(Token::TimeCode(value)) => bits::odd_ones(value),
        _ => false,
    }
}

fn body(escape: bool, flag: bool) -> Words
    ensures { result ≡ phase_words (body_of escape flag) 0 }
{
    let esc = words::truth_word(escape);
    if flag {
        [Phase::Control as u32, 0, 0, 0, esc, 0, 0]
    } else {
        [Phase::Data as u32, 0, 0, 0, esc, 0, NO_DATA]
    }
}

// What waits is reported, unless it is nothing or an ESC.
fn closes(waiting: Waiting) -> Option<Report>
    ensures { result ≡ closes waiting }
{
    match waiting {
        Waiting::Whole(token) => Some(Report::Got(token)),
        Waiting::Reported | Waiting::Esc => None,
    }
}

#[tactic(auto, unfolding(crate::specs::Decoder::flagged, crate::specs::Decoder::goes_on))]
fn flag_bit(words: &mut Words, flag: bool) -> Option<Report>
    ensures { (w : Waiting) (p : Bool) (s : ℕ) → FitsWaiting w → bad_waiting w ≡ false →
        Takes words.old (Heard (Parity w p) s) flag words.new result }
{
    let waiting = waiting(words[WAITS], words[VALUE]);
    let p = words::truth(words[FIRST]);
    if body_odd(waiting) ^ p ^ flag {
        *words = body(matches!(waiting, Waiting::Esc), flag);
        closes(waiting)
    } else {
        stop(words, Report::ParityError)
    }
}

// A data bit: the eighth makes a whole that waits.
#[tactic(auto, unfolding(crate::specs::Decoder::data_bit, crate::specs::Decoder::goes_on))]
fn data_bit(words: &mut Words, b: bool) -> Option<Report>
    ensures { (e : Bool) (p s : ℕ) → p < 256 →
        Takes words.old (Heard (Data e p) s) b words.new result }
{
    let places = words[PLACES];
    let next = shift(places, b);
    if places % 2 == 1 {
        let value = words::byte(next);
        let token = if words::truth(words[ESCAPE]) {
            Token::TimeCode(value)
        } else {
            Token::NChar(u16::from(value))
        };
        *words = between(Waiting::Whole(token));
    } else {
        words[SILENT] = 0;
        words[PLACES] = next;
    }
    None
}

fn plain(a: bool, b: bool) -> Waiting
    ensures { result ≡ plain a b }
{
    match (a, b) {
        (false, false) => Waiting::Whole(Token::Fct),
        (false, true) => Waiting::Whole(Token::NChar(EOP)),
        (true, false) => Waiting::Whole(Token::NChar(EEP)),
        (true, true) => Waiting::Esc,
    }
}

#[tactic(auto, unfolding(crate::specs::Decoder::goes_on))]
fn second_bit(words: &mut Words, b: bool) -> Option<Report>
    ensures { (e a : Bool) (s : ℕ) → Takes words.old (Heard (Second e a) s) b words.new result }
{
    let a = words::truth(words[FIRST]);
    let waiting = match (words::truth(words[ESCAPE]), a | b) {
        (false, _) => plain(a, b),
        (true, false) => Waiting::Whole(Token::Null),
        (true, true) => return stop(words, Report::EscapeError),
    };
    *words = between(waiting);
    None
}

// One bit, any number but 0 for a one, and what it makes the decoder report: on the last of 01110100 from fresh NULL.
pub fn bit(words: &mut Words, bit: u32) -> Result<Option<Report>, Refusal>
    ensures { record { refusal = refusal_in result; state = words.new; out = report_words (answer_in None result) }
        ≡ bit_left words.old bit }
{
    let b = words::truth(bit);
    match good_words::phase_of(words)? {
        Phase::Fresh => Ok(hunt(words, NO_BITS, b)),
        Phase::Hunting => {
            let places = words[PLACES];
            Ok(hunt(words, places, b))
        }
        Phase::Between => Ok(keep_bit(words, Phase::Parity, b)),
        Phase::Parity => Ok(flag_bit(words, b)),
        Phase::Data => Ok(data_bit(words, b)),
        Phase::Control => Ok(keep_bit(words, Phase::Second, b)),
        Phase::Second => Ok(second_bit(words, b)),
        Phase::Stopped => Err(Refusal::Stopped),
    }
}

// One more tick of a silence.
#[tactic(auto, unfolding(crate::specs::Decoder::silence))]
fn silent_tick(words: &mut Words) -> Option<Report>
    ensures { (p : InPhase) (s : ℕ) → words.old ≡ phase_words p s → Made (silence p s) words.new result }
{
    let silent = words[SILENT];
    if silent < MOST_SILENT {
        words[SILENT] = silent + 1;
        None
    } else {
        stop(words, Report::Disconnect)
    }
}

// One tick, and what it makes the decoder report: the ninth in a row behind a bit disconnects.
pub fn tick(words: &mut Words) -> Result<Option<Report>, Refusal>
    ensures { record { refusal = refusal_in result; state = words.new; out = report_words (answer_in None result) }
        ≡ tick_left words.old }
{
    match good_words::phase_of(words)? {
        Phase::Fresh => Ok(None),
        Phase::Stopped => Err(Refusal::Stopped),
        _ => Ok(silent_tick(words)),
    }
}
