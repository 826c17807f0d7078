use crate::audits::audit_copies;
use crate::holdings::VolumeFile;
use crate::notices::Numbers;
use crate::sizes::Size;
use crate::ways::Way;
use crate::wording::Many;
use anyhow::bail;
use guarantee::{read, write};
use rows::{Notice, RowStore, Statement};
use std::fs;

/// A statement, and how many records it has.
#[derive(Clone, Copy)]
pub struct Counted<'a> {
    pub statement: Statement<'a>,
    pub records: u32,
}

impl<'a> Counted<'a> {
    /// Writes this statement to both copies, and reads them back.
    pub fn make_copies(&self, rt: &HostRuntime) -> anyhow::Result<()> {
        let disk = self.make_copy(rt, Way::DISK, "recalled.disk")?;
        let tape = self.make_copy(rt, Way::TAPE, "recalled.tape")?;
        audit_copies(rt, &disk, &tape, self.records)
    }

    fn make_copy(&self, rt: &HostRuntime, way: Way, name: &str) -> anyhow::Result<VolumeFile> {
        println!(rt; "Copy {name}: {way}")?;
        let bytes = self.image(rt, way)?;
        fs::write(rt, name, bytes.as_slice())?;
        let put = Many(u64::from(self.records), "record");
        let written = Many(bytes.len() as u64, "byte");
        println!(rt; "  written: {put}, {written}")?;
        let copy = VolumeFile::load(rt, way, name)?;
        self.read_back(rt, &copy)?;
        Ok(copy)
    }

    // The image of this statement, with a place for each record.
    fn image(&self, rt: &HostRuntime, way: Way) -> anyhow::Result<Vec<u8>> {
        let mut bytes = vec![in rt.alloc(); 0; way.length(self.records)]?;
        if let Err(refusal) = write(&self.statement, &mut way.image(&mut bytes)) {
            println!(rt; "  {}", Numbers(Notice::from(refusal)))?;
            bail!("the copy is not written");
        }
        Ok(bytes)
    }

    // Reads a copy into tables of its own, and compares it with this statement.
    fn read_back(&self, rt: &HostRuntime, copy: &VolumeFile) -> anyhow::Result<()> {
        let size = Size::from(&self.statement);
        let mut store = RowStore::new(rt.alloc(), size.accounts, size.movements, size.texts)?;
        let mut tables = store.tables();
        if let Err(refusal) = read(&mut copy.carrier(), &mut tables) {
            println!(rt; "  {}", Numbers(Notice::from(refusal)))?;
            bail!("the copy is not read back");
        }
        let back = Counted {
            statement: tables.statement(),
            records: self.records,
        };
        let back_size = Size::from(&back.statement);
        println!(rt; "  read back: {back_size}")?;
        let again = back.image(rt, copy.way)?;
        let found = if back_size != size {
            "it does not agree: the rows are not as many"
        } else if again.as_slice() != copy.bytes.as_slice() {
            "it does not agree: its rows write other bytes"
        } else {
            "it agrees: as many rows, and they write the same bytes"
        };
        println!(rt; "  {found}")?;
        Ok(())
    }
}
