// Decoder and encoder. A refused call leaves the state's words and answers zeros in `out`.
ghost use Rattle.std.specs.Prelude.{◌≡◌};
ghost use Rattle.characters.specs.States.{Fresh};
ghost use Rattle.characters.specs.Encoder.{fresh_encoder};
ghost use Rattle.characters.specs.DecoderWords.{decoder_words, bit_left, tick_left};
ghost use Rattle.characters.specs.EncoderWords.{encoder_words, encode_left};

use crate::answers;
use characters::{decoder, encoder};

pub fn neftolek_decoder_fresh(state: &mut decoder::Words)
    ensures { state.new ≡ decoder_words Fresh }
{
    decoder::fresh(state);
}

// One bit, any number but 0 for a one: `out` gets the number and the value of the report.
pub fn neftolek_decoder_bit(state: &mut decoder::Words, bit: u32, out: &mut [u32; 2]) -> u32
    ensures { record { refusal = result; state = state.new; out = out.new }
        ≡ bit_left state.old bit }
{
    words::answer(decoder::bit(state, bit).map(answers::reported), out)
}

pub fn neftolek_decoder_tick(state: &mut decoder::Words, out: &mut [u32; 2]) -> u32
    ensures { record { refusal = result; state = state.new; out = out.new }
        ≡ tick_left state.old }
{
    words::answer(decoder::tick(state).map(answers::reported), out)
}

pub fn neftolek_encoder_fresh(state: &mut encoder::Words)
    ensures { state.new ≡ encoder_words fresh_encoder }
{
    encoder::fresh(state);
}

// The token with this number and value: `out` gets its bits, the first sent least significant, and their count.
pub fn neftolek_encode(state: &mut encoder::Words, kind: u32, value: u32, out: &mut [u32; 2]) -> u32
    ensures { record { refusal = result; state = state.new; out = out.new }
        ≡ encode_left state.old kind value }
{
    words::answer(
        encoder::encode(state, kind, value).map(<[u32; 2]>::from),
        out,
    )
}
