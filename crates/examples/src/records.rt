// Records: what is proper, and the order.
use record::{Leaf, Record, Rule, Stamp};
use shown_lines::Verdict;
use std::io;

// N is 4 here, and three requests are finished.
const RULE: Rule = Rule {
    leaves: 4,
    below: Stamp(3),
};

fn record_line(rt: &impl Print, text: &str, r: Record) -> io::Result<()> {
    println!(rt; "{text} {} {} {} {}", r.key, r.value, r.label.0, r.stamp.0)
}

fn verdict_line(rt: &impl Print, text: &str, yes: bool) -> io::Result<()> {
    println!(rt; "{text}{}", Verdict(yes))
}

pub(crate) fn records(rt: &impl Print) -> io::Result<()> {
    record_line(rt, "dummy:", Record::DUMMY)?;
    keys(rt)?;
    bounds(rt)?;
    orders(rt)
}

fn keys(rt: &impl Print) -> io::Result<()> {
    let last_key = Record::proper(18446744073709551614, 0, Leaf(3), Stamp(2));
    verdict_line(rt, "key 2^64 - 2 is proper:", last_key.is_proper(RULE))?;
    let no_key = Record::proper(18446744073709551615, 0, Leaf(3), Stamp(2));
    verdict_line(rt, "key 2^64 - 1 is proper:", no_key.is_proper(RULE))?;
    verdict_line(
        rt,
        "key 2^64 - 1 with a label is the dummy:",
        no_key.is_dummy(),
    )?;
    verdict_line(
        rt,
        "key 2^64 - 1 with a label may stand:",
        no_key.may_stand(RULE),
    )
}

fn bounds(rt: &impl Print) -> io::Result<()> {
    verdict_line(rt, "the dummy may stand:", Record::DUMMY.may_stand(RULE))?;
    let label_n = Record::proper(5, 50, Leaf(4), Stamp(2));
    verdict_line(rt, "label N is proper:", label_n.is_proper(RULE))?;
    let stamp_t = Record::proper(5, 50, Leaf(3), Stamp(3));
    verdict_line(rt, "stamp t is proper:", stamp_t.is_proper(RULE))
}

fn orders(rt: &impl Print) -> io::Result<()> {
    let early = Record::proper(5, 50, Leaf(3), Stamp(0));
    let late = Record::proper(5, 40, Leaf(1), Stamp(1));
    record_line(rt, "equal keys, the smaller is:", late.smaller(early))?;
    let last_key = Record::proper(18446744073709551614, 0, Leaf(3), Stamp(2));
    record_line(
        rt,
        "the last key before the dummy:",
        Record::DUMMY.smaller(last_key),
    )?;
    let copy = Record::proper(5, 99, Leaf(2), Stamp(0));
    record_line(rt, "a tie takes the first:", copy.smaller(early))?;
    verdict_line(rt, "a tie is the same:", copy.same(early))
}
