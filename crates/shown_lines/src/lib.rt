// How the example programs print numbers and verdicts in a line of a table. Stands on nothing.
#![tactic(auto)]

ghost use Rattle.std.specs.Prelude.{cond, Some};
ghost use Rattle.shown_lines.specs.Shown.{spaced, yes_text, no_text};

use std::fmt;

// Numbers, each after a space.
#[derive(Clone, Copy)]
pub struct Numbers<'a>(pub &'a [u64]);

impl fmt::Display for Numbers<'_> {
    ghost output = { λ x. Some (spaced x.0.now) };

    fn fmt<W: fmt::Write>(&self, f: &mut fmt::Formatter<W>) -> fmt::Result {
        for n in self.0 {
            write!(f, " {n}")?;
        }
        Ok(())
    }
}

// Whether something holds, after a space.
#[derive(Clone, Copy)]
pub struct Verdict(pub bool);

impl fmt::Display for Verdict {
    ghost output = { λ x. Some (cond x.0 yes_text no_text) };

    fn fmt<W: fmt::Write>(&self, f: &mut fmt::Formatter<W>) -> fmt::Result {
        f.write_str(if self.0 { " yes" } else { " no" })
    }
}
