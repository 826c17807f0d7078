use charset::characters::ENYE;
use fields::{Date, Key};
use std::fmt;

/// A count of things, in words: `1 text`, `2 texts`.
#[derive(Clone, Copy)]
pub struct Many(pub u64, pub &'static str);

impl fmt::Display for Many {
    fn fmt<W: fmt::Write>(&self, f: &mut fmt::Formatter<W>) -> fmt::Result {
        let Many(count, thing) = *self;
        let plural = if count == 1 { "" } else { "s" };
        write!(f, "{count} {thing}{plural}")
    }
}

/// The characters of a field.
#[derive(Clone, Copy)]
pub struct Characters<'a>(pub &'a [u8]);

impl<'a> fmt::Display for Characters<'a> {
    fn fmt<W: fmt::Write>(&self, f: &mut fmt::Formatter<W>) -> fmt::Result {
        for character in self.0.trim_ascii_end() {
            match *character {
                ENYE => f.write_str("Ñ")?,
                other => f.write_char(char::from(other))?,
            }
        }
        Ok(())
    }
}

/// A date with its full year.
#[derive(Clone, Copy)]
pub struct Day(pub Date);

impl fmt::Display for Day {
    fn fmt<W: fmt::Write>(&self, f: &mut fmt::Formatter<W>) -> fmt::Result {
        // Taken apart here: no library prints a date, and a year in full is no plainer there.
        let digits = self.0.digits;
        let century = if digits >= 820_000 { 19 } else { 20 };
        let year = digits / 10_000;
        let month = digits / 100 % 100;
        let day = digits % 100;
        write!(f, "{century}{year:02}-{month:02}-{day:02}")
    }
}

/// An amount of hundredths, with the sign of its key and two decimals.
#[derive(Clone, Copy)]
pub struct Amount(pub Key, pub u128);

impl fmt::Display for Amount {
    fn fmt<W: fmt::Write>(&self, f: &mut fmt::Formatter<W>) -> fmt::Result {
        let Amount(key, hundredths) = *self;
        let sign = match key {
            Key::Debit => '-',
            Key::Credit => '+',
        };
        let units = hundredths / 100;
        let rest = hundredths % 100;
        write!(f, "{sign}{units}.{rest:02}")
    }
}
