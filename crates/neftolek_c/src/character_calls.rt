// Decoder and encoder: each export is the call of `neftolek` with its name, with its clauses.
ghost use Rattle.std.specs.Prelude.{◌≡◌};
ghost use Rattle.characters.specs.States.{Fresh};
ghost use Rattle.characters.specs.Encoder.{fresh_encoder};
ghost use Rattle.characters.specs.DecoderWords.{decoder_words, bit_left, tick_left};
ghost use Rattle.characters.specs.EncoderWords.{encoder_words, encode_left};

use characters::{decoder, encoder};
use neftolek::character_calls;

#[unsafe(no_mangle)]
pub extern "C" fn neftolek_decoder_fresh(state: &mut decoder::Words)
    ensures { state.new ≡ decoder_words Fresh }
{
    character_calls::neftolek_decoder_fresh(state);
}

#[unsafe(no_mangle)]
pub extern "C" fn neftolek_decoder_bit(
    state: &mut decoder::Words,
    bit: u32,
    out: &mut [u32; 2],
) -> u32
    ensures { record { refusal = result; state = state.new; out = out.new }
        ≡ bit_left state.old bit }
{
    character_calls::neftolek_decoder_bit(state, bit, out)
}

#[unsafe(no_mangle)]
pub extern "C" fn neftolek_decoder_tick(state: &mut decoder::Words, out: &mut [u32; 2]) -> u32
    ensures { record { refusal = result; state = state.new; out = out.new }
        ≡ tick_left state.old }
{
    character_calls::neftolek_decoder_tick(state, out)
}

#[unsafe(no_mangle)]
pub extern "C" fn neftolek_encoder_fresh(state: &mut encoder::Words)
    ensures { state.new ≡ encoder_words fresh_encoder }
{
    character_calls::neftolek_encoder_fresh(state);
}

#[unsafe(no_mangle)]
pub extern "C" fn neftolek_encode(
    state: &mut encoder::Words,
    kind: u32,
    value: u32,
    out: &mut [u32; 2],
) -> u32
    ensures { record { refusal = result; state = state.new; out = out.new }
        ≡ encode_left state.old kind value }
{
    character_calls::neftolek_encode(state, kind, value, out)
}
