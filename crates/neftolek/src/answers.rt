// What calls answer, as the words that C gets.
ghost use Rattle.std.specs.Prelude.{◌≡◌, [], ◌∷◌};
ghost use Rattle.vocabulary.specs.Refusals.{refusal_in};
ghost use Rattle.characters.specs.Reports.{report_words};

use characters::reports::Report;
use vocabulary::Refusal;

// Of a call that has nothing to say but its refusal.
pub(crate) fn number(answered: Result<(), Refusal>) -> u32
    ensures { result ≡ refusal_in answered }
{
    answered.err().map_or(0, u32::from)
}

// Of a call that has one word to say beside its refusal.
pub(crate) fn one_word(word: u32) -> [u32; 1]
    ensures { result ≡ word ∷ [] }
{
    [word]
}

// Of a call on a link end that took an N-Char, and so discarded none.
pub(crate) fn with_none_discarded(nchar: u16) -> [u32; 2]
    ensures { result ≡ 0 ∷ nchar ∷ [] }
{
    [0, u32::from(nchar)]
}

// Of a bit or a tick: the number and the value of the report, 0 and 0 where there is none.
pub(crate) fn reported(report: Option<Report>) -> [u32; 2]
    ensures { result ≡ report_words report }
{
    report.map_or([0, 0], <[u32; 2]>::from)
}
