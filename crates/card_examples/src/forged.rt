// A line of the table for a forged card: what each of the five calls gives on a card that differs from a named one in the
// numbers that are given.
ghost use Rattle.std.specs.Prelude.{◌<◌};

use crate::named::{HELD, Like, card};
use crate::{calls, cards};
use request::Request;
use std::io;

pub(crate) fn each(rt: &(impl Print + Input), like: Like) -> io::Result<()> {
    calls::each(rt, card(like))
}

pub(crate) fn sized(rt: &(impl Print + Input), h: u64, z: u64, r: u64, t: u64) -> io::Result<()> {
    calls::each(rt, cards::sized(cards::fresh(), h, z, r, t))
}

pub(crate) fn counts(rt: &(impl Print + Input), like: Like, t: u64, c: u64) -> io::Result<()> {
    calls::each(rt, cards::counts(card(like), t, c))
}

pub(crate) fn slot(
    rt: &(impl Print + Input),
    i: usize,
    key: u64,
    value: u64,
    label: u64,
    stamp: u64,
) -> io::Result<()>
    requires { i < 64 }
{
    calls::each(rt, cards::slot(card(HELD), i, key, value, label, stamp))
}

pub(crate) fn least(
    rt: &(impl Print + Input),
    like: Like,
    key: u64,
    value: u64,
    label: u64,
    stamp: u64,
) -> io::Result<()> {
    calls::each(rt, cards::least(card(like), key, value, label, stamp))
}

pub(crate) fn waiting(rt: &(impl Print + Input), like: Like, request: Request) -> io::Result<()> {
    calls::each(rt, cards::waiting(card(like), request))
}
