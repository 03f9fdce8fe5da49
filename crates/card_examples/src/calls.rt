// One call on a card, and its line: the name of the case, the answer, and for a begin the whole list that is lent. Each
// hands back the card.
use crate::requests::{delete, insert};
use crate::{line, show};
use card::{Card, Done};
use request::Request;
use shown_lines::Numbers;
use std::io;

// Every place of the list, so that places past the last number show.
pub(crate) fn begin(
    rt: &(impl Print + Input),
    card: Card,
    request: Request,
    list: &mut [u64],
) -> io::Result<Card> {
    let done = card.begin(request, list);
    line::name(rt)?;
    show::answer(rt, done.answer)?;
    println!(rt; " list{}", Numbers(list))?;
    Ok(done.card)
}

fn told(rt: &(impl Print + Input), done: Done) -> io::Result<Card> {
    line::name(rt)?;
    show::answer(rt, done.answer)?;
    println!(rt; "")?;
    Ok(done.card)
}

pub(crate) fn min(rt: &(impl Print + Input), card: Card) -> io::Result<Card> {
    told(rt, card.find_min())
}

pub(crate) fn withdraw(rt: &(impl Print + Input), card: Card) -> io::Result<Card> {
    told(rt, card.withdraw())
}

// The number alone that each of the five calls gives, with fields that a good card with an event takes.
pub(crate) fn each(rt: &(impl Print + Input), card: Card) -> io::Result<()> {
    let calls = [
        card.begin(insert(6, 1, 1, 2), &mut [99; 12]),
        card.begin(Request::Extract, &mut [99; 12]),
        card.begin(delete(0, 0), &mut [99; 12]),
        card.find_min(),
        card.withdraw(),
    ];
    line::name(rt)?;
    println!(rt;
        "{}",
        Numbers(&calls.map(|done| answers::number_of(done.answer)))
    )
}
