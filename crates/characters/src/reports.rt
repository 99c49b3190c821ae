// What a decoder reports, and what waits in it to be reported (01, Characters on the wire, Decoder).
ghost use Rattle.std.specs.Prelude.{◌≡◌, Some};
ghost use Rattle.characters.specs.Reports.{report_words};

use vocabulary::Token;

#[derive(Clone, Copy, Debug, PartialEq, Eq)]
pub enum Report {
    Got(Token),
    ParityError,
    EscapeError,
    Disconnect,
}

// As C takes it: a token's number and value, or 5, 6 or 7 for an error, without a value.
impl From<Report> for [u32; 2] {
    ghost from_gives = { λ report words. words ≡ report_words (Some report) };

    fn from(report: Report) -> [u32; 2] {
        match report {
            Report::Got(token) => [
                u32::from(vocabulary::kind(token)),
                u32::from(vocabulary::value(token)),
            ],
            Report::ParityError => [5, 0],
            Report::EscapeError => [6, 0],
            Report::Disconnect => [7, 0],
        }
    }
}

// What the last character left to report. No call answers it: it is public since theorems above this crate speak of it.
#[derive(Clone, Copy, Debug, PartialEq, Eq)]
pub enum Waiting {
    // Nothing: the first NULL was reported at once.
    Reported,
    // A token, once the next flag has closed its parity.
    Whole(Token),
    // Half of a NULL or of a Time-Code.
    Esc,
}
