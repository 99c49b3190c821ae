// Where in a character the next bit falls, by the number that stands first among the words of a decoder.
ghost use Rattle.std.specs.Prelude.{◌≡◌};
ghost use Rattle.characters.specs.DecoderWords.{phase_number, phase_numbered};

use vocabulary::Refusal;

#[derive(Clone, Copy, Debug, PartialEq, Eq)]
pub(crate) enum Phase {
    Fresh,
    Hunting,
    Between,
    Parity,
    Data,
    Control,
    Second,
    Stopped,
}

impl TryFrom<u32> for Phase {
    type Error = Refusal;

    ghost try_from_gives = { λ n phase. phase ≡ phase_numbered n };

    #[inline(always)]
    fn try_from(number: u32) -> Result<Phase, Refusal> {
        match number {
            0 => Ok(Phase::Fresh),
            1 => Ok(Phase::Hunting),
            2 => Ok(Phase::Between),
            3 => Ok(Phase::Parity),
            4 => Ok(Phase::Data),
            5 => Ok(Phase::Control),
            6 => Ok(Phase::Second),
            7 => Ok(Phase::Stopped),
            _ => Err(Refusal::State),
        }
    }
}
