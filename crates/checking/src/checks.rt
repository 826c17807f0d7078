ghost use Rattle.checking.specs.Checks.{Checked};

use crate::lines::Report;
use charset::{CodePage, CodeTable};
use guarantee::read;
use media::{Framing, Volume};
use rows::{Layer, Notice, Tables};

/// The most bytes that are checked.
pub const MOST_BYTES: usize = 65_536;

/// How many rows the programs give each table.
pub const ROWS: usize = 800;

/// Reads an input, lines in page 850, into tables, and tells what came of it. An input of too many bytes is not read.
pub fn check(input: &[u8], tables: &mut Tables) -> Report
    ensures { Checked tables.old tables.new input.now result }
{
    if input.len() > MOST_BYTES {
        return Report {
            notice: Some(Notice {
                layer: Layer::Tables,
                number: 35,
                record: 0,
                place: 0,
                volume: 0,
            }),
            accounts: 0,
            movements: 0,
        };
    }
    let mut volume = Volume::new(input, Framing::Lines, CodeTable::from(CodePage::Page850));
    let notice = read(&mut volume, tables).err().map(Notice::from);
    Report {
        notice,
        accounts: tables.accounts.len(),
        movements: tables.movements.len(),
    }
}
