// What goes out (01, Send).
#![tactic(auto, unfolding(crate::specs::LinkWords::link_words, store::specs::StoreWords::store_of))]

ghost use Rattle.std.specs.Prelude.{◌≡◌, ◌+◌, None};
ghost use Rattle.vocabulary.specs.Choice.{pick};
ghost use Rattle.vocabulary.specs.declared.Token.{Token};
ghost use Rattle.link.specs.Records.{Link};
ghost use Rattle.link.specs.Ends.{with_offer};
ghost use Rattle.link.specs.Credit.{with_given};
ghost use Rattle.link.specs.Send.{grants, has_n_char, choice_in_run, choice_with};
ghost use Rattle.link.specs.Send.{choice, null_sent, n_char_sent, booked_token, booked};
ghost use Rattle.link.specs.InPlace.{ReadsGood, Writes, WritesGood, SmallEnough};

use crate::fields::{CODE, NULL_SENT, OFFERED, RX, SENT, TX, Words};
use crate::{LinkState, fields};
use vocabulary::Token;

fn grants_fct(words: &Words, size: usize) -> bool
    ensures { ReadsGood words.now (grants size) result }
{
    let free = fields::store_at(words, RX).free_places(size);
    fields::given_in(words).may_grant(free)
}

fn has_n_char(words: &Words) -> bool
    ensures { ReadsGood words.now has_n_char result }
{
    fields::held_in(words).0 != 0 && !fields::store_at(words, TX).is_empty()
}

fn choose_in_run(words: &Words, size: usize, tx: &[u16]) -> Token
    ensures { ReadsGood words.now (choice_in_run size tx.now) result }
{
    if grants_fct(words, size) {
        Token::Fct
    } else if has_n_char(words) {
        Token::NChar(fields::store_at(words, TX).look(tx))
    } else {
        Token::Null
    }
}

fn choose_with(words: &Words, size: usize, tx: &[u16]) -> Token
    ensures { ReadsGood words.now (λ (l : Link). choice_with l.offer size tx.now l) result }
{
    if words::truth(words[OFFERED]) {
        Token::TimeCode(words::byte(words[CODE]))
    } else {
        choose_in_run(words, size, tx)
    }
}

fn fct_or_null(may: bool) -> Token
    ensures { result ≡ pick may Token.Fct Token.Null }
{
    if may { Token::Fct } else { Token::Null }
}

pub(crate) fn choose(words: &Words, size: usize, tx: &[u16]) -> Option<Token>
    ensures { ReadsGood words.now (choice size tx.now) result }
{
    match fields::state_in(words) {
        LinkState::ErrorReset | LinkState::ErrorWait | LinkState::Ready => None,
        LinkState::Started => Some(Token::Null),
        LinkState::Connecting => Some(fct_or_null(grants_fct(words, size))),
        LinkState::Run => Some(choose_with(words, size, tx)),
    }
}

// Like `received::got_null` but for the mark: one line each.
fn null_sent(words: &mut Words)
    ensures { Writes words.old null_sent words.new }
{
    fields::set_truth(words, NULL_SENT, true);
}

fn fct_sent(words: &mut Words)
    ensures { WritesGood words.old (λ (l : Link). with_given l (l.credit.given.0 + 8)) words.new }
{
    let given = fields::given_in(words);
    fields::set_given(words, given.eight_more());
}

fn n_char_sent(words: &mut Words, tx: &[u16], n: u16)
    ensures { SmallEnough tx.now → WritesGood words.old (λ (l : Link). n_char_sent tx.now l n) words.new }
{
    let held = fields::held_in(words);
    fields::set_held(words, held.one_less());
    fields::drop_at(words, TX, tx);
    fields::set_truth(words, SENT, !vocabulary::is_end(n));
}

fn time_code_sent(words: &mut Words)
    ensures { Writes words.old (λ (l : Link). with_offer l None) words.new }
{
    words[OFFERED] = 0;
    words[CODE] = 0;
}

fn book_token(words: &mut Words, tx: &[u16], t: Token)
    ensures { SmallEnough tx.now → WritesGood words.old (λ (l : Link). booked_token tx.now l t) words.new }
{
    match t {
        Token::Null => null_sent(words),
        Token::Fct => fct_sent(words),
        Token::NChar(n) => n_char_sent(words, tx, n),
        Token::TimeCode(_) => time_code_sent(words),
    }
}

// What is booked for what goes out.
pub(crate) fn book(words: &mut Words, tx: &[u16], s: Option<Token>)
    ensures { SmallEnough tx.now → WritesGood words.old (λ (l : Link). booked tx.now l s) words.new }
{
    if let Some(t) = s {
        book_token(words, tx, t);
    }
}
