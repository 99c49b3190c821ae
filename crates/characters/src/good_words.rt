// Whether words are those of a decoder that a call could have left. A word that a phase has no use for is 0.
ghost use Rattle.std.specs.Prelude.{◌≡◌, Err};
ghost use Rattle.vocabulary.specs.Choice.{pick};
ghost use Rattle.vocabulary.specs.Refusals.{STATE};
ghost use Rattle.words.specs.Words.{word_at};
ghost use Rattle.characters.specs.DecoderWords.{most_value, is_good, within, phase_at, phase_number, phase_numbered};

use crate::decoder::{
    ESC, ESCAPE, FIRST, HUNTED_FOR, MOST_SILENT, PHASE, PLACES, SILENT, VALUE, WAITS, Words,
};
use crate::phases::Phase;
use vocabulary::Refusal;

// No word is above the largest that is allowed in its place. The words stand one by one: with `zip` and `all` over them
// a bit takes 1.10 of the tested model's time where it takes 0.88, and 1.0 is allowed.
#[inline(always)]
fn within(words: &Words, most: Words) -> bool
    ensures { result ≡ within words.now most }
{
    (words[PHASE] <= most[PHASE])
        & (words[SILENT] <= most[SILENT])
        & (words[WAITS] <= most[WAITS])
        & (words[VALUE] <= most[VALUE])
        & (words[ESCAPE] <= most[ESCAPE])
        & (words[FIRST] <= most[FIRST])
        & (words[PLACES] <= most[PLACES])
}

// The largest value that something with this number waits with, as C's words hold it: 3 an N-Char, 4 a Time-Code. Nothing,
// NULL, FCT and ESC wait with the value 0.
#[inline(always)]
fn most_value(number: u32) -> u32
    ensures { result ≡ most_value number }
{
    match number {
        3 => 257,
        4 => 255,
        _ => 0,
    }
}

#[inline(always)]
fn fits(phase: Phase, words: &Words) -> bool
    requires { word_at words.now phase_at ≡ phase_number phase }
    ensures { result ≡ is_good words.now }
{
    match phase {
        Phase::Fresh | Phase::Stopped => within(words, [7, 0, 0, 0, 0, 0, 0]),
        Phase::Hunting => {
            within(words, [7, MOST_SILENT, 0, 0, 0, 0, 255]) & (words[PLACES] != HUNTED_FOR)
        }
        Phase::Between => {
            within(
                words,
                [7, MOST_SILENT, ESC, most_value(words[WAITS]), 0, 0, 0],
            )
        }
        Phase::Parity => {
            within(
                words,
                [7, MOST_SILENT, ESC, most_value(words[WAITS]), 0, 1, 0],
            )
        }
        Phase::Data => { within(words, [7, MOST_SILENT, 0, 0, 1, 0, 255]) & (words[PLACES] != 0) }
        Phase::Control => within(words, [7, MOST_SILENT, 0, 0, 1, 0, 0]),
        Phase::Second => within(words, [7, MOST_SILENT, 0, 0, 1, 1, 0]),
    }
}

// The phase of good words; any others are refused.
#[inline(always)]
pub(crate) fn phase_of(words: &Words) -> Result<Phase, Refusal>
    ensures { result ≡ pick (is_good words.now) (phase_numbered (word_at words.now phase_at)) (Err STATE) }
{
    let phase = Phase::try_from(words[PHASE])?;
    vocabulary::refuse(!fits(phase, words), Refusal::State)?;
    Ok(phase)
}
