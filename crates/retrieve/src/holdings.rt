use crate::ways::Way;
use crate::wording::Many;
use anyhow::bail;
use archiving::{Counts, ReadRefusal};
use guarantee::read;
use media::framing::RECORD_LENGTH;
use media::{Joined, Volume};
use rows::Tables;
use std::fs;

/// A volume in a file: its name, how it is written, and its bytes.
#[derive(Drop)]
pub struct VolumeFile {
    pub name: String,
    pub way: Way,
    pub bytes: Vec<u8>,
}

impl VolumeFile {
    /// The volume in the file of this name.
    pub fn load(rt: &HostRuntime, way: Way, name: &str) -> anyhow::Result<VolumeFile> {
        let bytes = fs::read(rt, name);
        // A line of its own, however long the name is: an error keeps 120 bytes of what it says.
        if bytes.is_err() {
            eprintln!(rt; "the volume '{name}' cannot be read")?;
        }
        let bytes = bytes?;
        let name = String::from_str(rt.alloc(), name)?;
        Ok(VolumeFile { name, way, bytes })
    }

    /// The carrier over this volume.
    pub fn carrier(&self) -> Volume<'_> {
        self.way.volume(self.bytes.as_slice())
    }
}

/// The most rows that a table needs for a holding: each record fills at most one.
pub fn most_rows(volumes: &[VolumeFile]) -> usize {
    volumes.iter().fold(1usize, |rows, volume| {
        rows.saturating_add(volume.bytes.len() / RECORD_LENGTH)
    })
}

/// Tells which volumes a holding has.
pub fn tell_volumes(rt: &HostRuntime, volumes: &[VolumeFile]) -> anyhow::Result<()> {
    let many = Many(volumes.len() as u64, "volume");
    println!(rt; "A holding of {many}")?;
    for volume in volumes {
        let VolumeFile { name, way, bytes } = volume;
        let length = Many(bytes.len() as u64, "byte");
        println!(rt; "  {name}: {way}, {length}")?;
    }
    Ok(())
}

/// Reads one to four volumes as one holding. Joined carriers of other numbers have other types.
pub fn read_holding(
    volumes: &[VolumeFile],
    tables: &mut Tables,
) -> anyhow::Result<Result<Counts, ReadRefusal>> {
    match volumes {
        [a] => Ok(read(&mut a.carrier(), tables)),
        [a, b] => Ok(read(&mut join(a.carrier(), b.carrier()), tables)),
        [a, b, c] => {
            let rest = join(b.carrier(), c.carrier());
            Ok(read(&mut join(a.carrier(), rest), tables))
        }
        [a, b, c, d] => {
            let rest = join(b.carrier(), join(c.carrier(), d.carrier()));
            Ok(read(&mut join(a.carrier(), rest), tables))
        }
        _ => bail!("a holding has one to four volumes"),
    }
}

fn join<A, B>(first: A, second: B) -> Joined<A, B> {
    Joined { first, second }
}
