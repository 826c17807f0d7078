// Recalls a holding: reads its volumes into tables, tells what they hold, and writes new copies, which it reads back.
// Its arguments say how each volume is to be read, as `lines-850 FILE blocks-284 FILE`; without any it recalls the
// sample holdings, of which two are refused.
#![tactic(auto)]

mod accounts;
mod arguments;
mod audits;
mod copies;
mod holdings;
mod notices;
mod sizes;
mod ways;
mod wording;

use accounts::tell_accounts;
use anyhow::bail;
use arguments::named_volumes;
use copies::Counted;
use holdings::{VolumeFile, most_rows, read_holding, tell_volumes};
use notices::{Numbers, Refused};
use recalling::check_tables;
use rows::{Notice, RowStore, Statement};
use sizes::Size;
use ways::Way;

fn main(rt: HostRuntime) -> anyhow::Result<()> {
    let volumes = named_volumes(&rt)?;
    if volumes.is_empty() {
        return recall_samples(&rt);
    }
    recall(&rt, volumes.as_slice())
}

// The first volume of each sample is a disk image, the second a tape image.
fn recall_samples(rt: &HostRuntime) -> anyhow::Result<()> {
    recall_sample(rt, "holding-2.tape")?;
    println!(rt; "")?;
    recall_sample(rt, "damaged-2.tape")?;
    println!(rt; "")?;
    recall_sample(rt, "altered-2.tape")
}

fn recall_sample(rt: &HostRuntime, tape: &str) -> anyhow::Result<()> {
    let disk = VolumeFile::load(rt, Way::DISK, "holding-1.disk")?;
    let tape = VolumeFile::load(rt, Way::TAPE, tape)?;
    recall(rt, &[disk, tape])
}

// Reads a holding, and writes its copies unless it is refused.
fn recall(rt: &HostRuntime, volumes: &[VolumeFile]) -> anyhow::Result<()> {
    let most = most_rows(volumes);
    let mut store = RowStore::new(rt.alloc(), most, most, most)?;
    let mut tables = store.tables();
    tell_volumes(rt, volumes)?;
    let answer = read_holding(volumes, &mut tables)?;
    let statement = tables.statement();
    let size = Size::from(&statement);
    match answer {
        Ok(_) => {
            println!(rt; "  read to its end: {size}")?;
            copy_statement(rt, statement)
        }
        Err(refusal) => {
            println!(rt; "It is refused.")?;
            println!(rt; "  {}", Refused(refusal))?;
            println!(rt; "  {}", Numbers(Notice::from(refusal)))?;
            println!(rt; "  read before it: {size}")?;
            Ok(())
        }
    }
}

// Tells the accounts of a statement, and copies it.
fn copy_statement(rt: &HostRuntime, statement: Statement<'_>) -> anyhow::Result<()> {
    match check_tables(&statement) {
        Ok(records) => {
            println!(rt; "  its tables are a statement of {records} records")?;
            tell_accounts(rt, &statement)?;
            println!(rt; "")?;
            Counted { statement, records }.make_copies(rt)
        }
        Err(refusal) => {
            println!(rt; "  {}", Numbers(Notice::from(refusal)))?;
            bail!("the tables are no statement")
        }
    }
}
