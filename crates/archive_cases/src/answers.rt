use crate::rooms::{Room, SAMPLE};
use archiving::{Counts, ReadRefusal, read};
use media::Carrier;
use rows::{Notice, Tables};
use std::fmt;

/// What a read answers.
#[derive(Clone, Copy)]
pub struct ReadAnswer(pub Result<Counts, ReadRefusal>);

impl fmt::Display for ReadAnswer {
    fn fmt<W: fmt::Write>(&self, f: &mut fmt::Formatter<W>) -> fmt::Result {
        match self.0 {
            Ok(counts) => {
                let (accounts, movements, texts) = (
                    counts.accounts,
                    counts.movements,
                    counts.texts,
                );
                write!(f, "read {accounts} {movements} {texts}")
            }
            Err(refusal) => {
                let notice = Notice::from(refusal);
                write!(f, "{} volume {}", Numbers(notice), notice.volume)
            }
        }
    }
}

/// How many records there are, or what a refusal tells.
#[derive(Clone, Copy)]
pub struct Records(pub Result<u32, Notice>);

impl fmt::Display for Records {
    fn fmt<W: fmt::Write>(&self, f: &mut fmt::Formatter<W>) -> fmt::Result {
        match self.0 {
            Ok(records) => write!(f, "{records} records"),
            Err(notice) => write!(f, "{}", Numbers(notice)),
        }
    }
}

#[derive(Clone, Copy)]
struct Numbers(Notice);

impl fmt::Display for Numbers {
    fn fmt<W: fmt::Write>(&self, f: &mut fmt::Formatter<W>) -> fmt::Result {
        let Notice {
            layer,
            number,
            record,
            place,
            ..
        } = self.0;
        let layer = layer.number();
        write!(
            f,
            "layer {layer} number {number} record {record} place {place}"
        )
    }
}

/// Reads a carrier into tables, and tells the answer and how many rows are filled.
pub fn show_read<C: Carrier>(
    rt: &HostRuntime,
    carrier: &mut C,
    tables: &mut Tables,
) -> anyhow::Result<()> {
    let answer = ReadAnswer(read(carrier, tables));
    let accounts = tables.accounts.len();
    let movements = tables.movements.len();
    let texts = tables.texts.len();
    print!(rt; "{answer}; filled {accounts} {movements} {texts}")?;
    Ok(())
}

/// The same with new tables, which have just the rows that the sample needs.
pub fn show_carrier<C: Carrier>(rt: &HostRuntime, carrier: &mut C) -> anyhow::Result<()> {
    let mut room = Room::new(rt.alloc(), SAMPLE)?;
    show_read(rt, carrier, &mut room.tables())?;
    println!(rt; "")?;
    Ok(())
}

/// How bytes compare with a file.
pub fn compared(bytes: &[u8], file: &[u8]) -> &'static str {
    if bytes == file {
        "the file"
    } else {
        "not the file"
    }
}
