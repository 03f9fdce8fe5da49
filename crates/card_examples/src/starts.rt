// Starting a card: "Starting a card gives 1 only."
use crate::cards::TOP;
use crate::{calls, cards, line, show};
use card::Card;
use std::io;

fn start(rt: &impl Print, h: u64, z: u64, r: u64, t: u64) -> io::Result<()> {
    print!(rt; "start {h} {z} {r} {t}:")?;
    show::answer(rt, Card::start(h, z, r, t).answer)?;
    println!(rt; "")
}

fn within(rt: &impl Print) -> io::Result<()> {
    start(rt, 2, 1, 1, 16)?;
    start(rt, 1, 1, 1, 2)?;
    start(rt, 2, 5, 64, 4)?;
    start(rt, 16, 5, 64, 65536)?;
    start(rt, 16, 5, 64, 4294967295)
}

fn outside(rt: &impl Print) -> io::Result<()> {
    start(rt, 0, 1, 1, 16)?;
    start(rt, 17, 1, 1, 4294967295)?;
    start(rt, TOP, 1, 1, 16)?;
    start(rt, 2, 0, 1, 16)?;
    start(rt, 2, 6, 1, 16)?;
    start(rt, 2, 1, 0, 16)?;
    start(rt, 2, 1, 65, 16)?;
    start(rt, 2, 1, 1, 3)?;
    start(rt, 16, 5, 64, 65535)?;
    start(rt, 2, 1, 1, 4294967296)?;
    start(rt, 0, 0, 0, 0)
}

// The card that a start hands back, and then what each call gives on it.
fn handed_back(rt: &(impl Print + Input), t: u64) -> io::Result<()> {
    let card = cards::started(2, 1, 2, t);
    line::name(rt)?;
    show::card(rt, card)?;
    calls::each(rt, card)
}

// A refused start hands back a card with 0 in every field, which every call refuses.
pub(crate) fn starts(rt: &(impl Print + Input)) -> io::Result<()> {
    within(rt)?;
    outside(rt)?;
    println!(rt; "Of each card: Insert, ExtractMin, Delete, FindMin, withdraw.")?;
    handed_back(rt, 16)?;
    handed_back(rt, 3)
}
