ghost use Rattle.std.specs.Prelude.{Some};
ghost use Rattle.checking.specs.Lines.{line_of};

use rows::Notice;
use std::fmt;

/// What came of an input: what a refusal tells, if it was refused, and how many rows were filled.
#[derive(Clone, Copy, PartialEq, Eq, Debug)]
pub struct Report {
    pub notice: Option<Notice>,
    pub accounts: usize,
    pub movements: usize,
}

/// The line: layer, number, record and place, which are 0 where nothing was refused, then accounts and movements.
impl fmt::Display for Report {
    ghost output = { λ r. Some (line_of r) };

    fn fmt<W: fmt::Write>(&self, f: &mut fmt::Formatter<W>) -> fmt::Result {
        let (layer, number, record, place) = match self.notice {
            Some(n) => (n.layer.number(), n.number, n.record, n.place),
            None => (0, 0, 0, 0),
        };
        let (accounts, movements) = (self.accounts, self.movements);
        writeln!(
            f,
            "{layer:>2}{number:>3}{record:>8}{place:>8}{accounts:>7}{movements:>7}"
        )
    }
}
