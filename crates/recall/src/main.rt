// Recalls a holding: reads its volumes, offers their records to a reading and writes them to one tape image.
#![tactic(auto)]

mod survey;

use charset::{CodePage, CodeTable};
use media::{Carrier, Fault, Framing, Image, Joined, Volume, copy};
use reading::{Refusal, Told};
use std::fs;
use survey::{Kinds, Stop, survey};

// The holding's first volume is a disk image, its second a tape image.
const DISK: &str = "holding-1.disk";

fn main(rt: HostRuntime) -> anyhow::Result<()> {
    recall(&rt, "holding-2.tape", "recalled.tape")?;
    recall(&rt, "damaged-2.tape", "damaged.tape")?;
    recall(&rt, "altered-2.tape", "altered.tape")
}

fn recall(rt: &HostRuntime, tape: &str, image: &str) -> anyhow::Result<()> {
    let first = fs::read(rt, DISK)?;
    let second = fs::read(rt, tape)?;
    let mut holding = joined(&first, &second);
    println!(rt; "{DISK} and {tape}: {} volumes", holding.volumes())?;
    let mut kinds = Kinds::default();
    let surveyed = survey(&mut holding, &mut kinds);
    println!(rt; "{kinds}")?;
    match surveyed {
        Ok(()) => println!(rt; "they are a whole file")?,
        Err(Stop::Refused(refusal)) => tell_refusal(rt, refusal)?,
        Err(Stop::Broken(fault)) => tell_fault(rt, fault)?,
    }
    let mut holding = joined(&first, &second);
    let mut bytes = vec![in rt.alloc(); 0; first.len().saturating_add(second.len())]?;
    let mut output = Image::new(
        &mut bytes,
        Framing::Blocks,
        CodeTable::from(CodePage::Page284),
    );
    match copy(&mut holding, &mut output) {
        Ok(copied) => {
            println!(rt; "{} records copied to {image}", copied.records)?;
            match copied.ending {
                Ok(()) => println!(rt; "the holding ends clean")?,
                Err(fault) => tell_fault(rt, fault)?,
            }
        }
        Err(refusal) => println!(rt; "the image is full: {}", refusal.number())?,
    }
    let written = output.written();
    bytes.truncate(written);
    fs::write(rt, image, bytes.as_slice())?;
    println!(rt; "{written} bytes written")?;
    Ok(())
}

// The first volume is a disk image in page 850, the second a tape image in EBCDIC.
fn joined<'a>(disk: &'a [u8], tape: &'a [u8]) -> Joined<Volume<'a>, Volume<'a>> {
    Joined {
        first: Volume::new(disk, Framing::Lines, CodeTable::from(CodePage::Page850)),
        second: Volume::new(tape, Framing::Blocks, CodeTable::from(CodePage::Page284)),
    }
}

// reading_cases prints a refusal, and media_cases a fault, in other words; one function for both is no plainer.
fn tell_refusal(rt: &HostRuntime, refusal: Refusal) -> anyhow::Result<()> {
    let Told {
        number,
        record,
        column,
    } = Told::from(refusal);
    println!(rt; "refusal {number} at record {record}, column {column}")?;
    Ok(())
}

fn tell_fault(rt: &HostRuntime, fault: Fault) -> anyhow::Result<()> {
    println!(rt;
        "fault {} at byte {} of volume {}",
        fault.number, fault.place, fault.volume
    )?;
    Ok(())
}
