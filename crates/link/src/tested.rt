// What the calls test, one test behind the other (01, The ten refusals): "Tested in this order."
ghost use Rattle.std.specs.Prelude.{◌≡◌, length};
ghost use Rattle.vocabulary.specs.Refusals.{refusal_in};
ghost use Rattle.link.specs.LinkCalls.{record_refused, both_refused, put_refused, take_refused, offer_refused};

use crate::fields::Words;
use crate::{LinkState, fields, refusals};
use vocabulary::{Refusal, refuse};

// What every call tests: that the words are an end's, and its record's numbers.
#[inline(always)]
fn record(words: &Words) -> Result<(), Refusal>
    ensures { refusal_in result ≡ record_refused words.now }
{
    refuse(refusals::no_link(words), Refusal::State)?;
    refuse(refusals::bad_record(words), Refusal::State)
}

// What the calls test that are lent both stores.
#[inline(always)]
pub(crate) fn both(words: &Words, rx: usize, tx: usize) -> Result<(), Refusal>
    ensures { refusal_in result ≡ both_refused words.now rx tx }
{
    record(words)?;
    refuse(refusals::bad_sizes(rx, tx), Refusal::Store)?;
    refuse(refusals::bad_stores(words, rx, tx), Refusal::State)
}

// What a put tests, of the N-Char too.
#[inline(always)]
pub(crate) fn put(words: &Words, tx: usize, nchar: u16) -> Result<(), Refusal>
    ensures { refusal_in result ≡ put_refused words.now tx nchar }
{
    record(words)?;
    refuse(refusals::bad_size(tx, refusals::LEAST_TX), Refusal::Store)?;
    refuse(refusals::bad_transmit(words, tx), Refusal::State)?;
    refuse(vocabulary::above_eep(nchar), Refusal::Char)?;
    refuse(refusals::no_place(words, tx), Refusal::Full)
}

#[inline(always)]
pub(crate) fn take(words: &Words, rx: usize) -> Result<(), Refusal>
    ensures { refusal_in result ≡ take_refused words.now rx }
{
    record(words)?;
    refuse(refusals::bad_size(rx, refusals::LEAST_RX), Refusal::Store)?;
    refuse(refusals::bad_receive(words, rx), Refusal::State)?;
    refuse(refusals::is_empty(words), Refusal::Empty)
}

#[inline(always)]
pub(crate) fn offer(words: &Words) -> Result<(), Refusal>
    ensures { refusal_in result ≡ offer_refused words.now }
{
    record(words)?;
    refuse(!fields::is_in(words, LinkState::Run), Refusal::NotRun)
}
