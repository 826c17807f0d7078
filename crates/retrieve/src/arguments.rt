use crate::holdings::VolumeFile;
use crate::ways::Way;
use anyhow::bail;
use std::env;

/// The volumes that the arguments name, in order: before each file a word says how it is to be read.
pub fn named_volumes(rt: &HostRuntime) -> anyhow::Result<Vec<VolumeFile>> {
    let mut volumes = Vec::new(rt.alloc());
    let mut way = None;
    for word in env::args(rt)?.skip(1) {
        match way.take() {
            Some(way) => volumes.push(VolumeFile::load(rt, way, word.as_str())?)?,
            None => {
                let named = word.as_str().parse::<Way>();
                if named.is_err() {
                    eprintln!(rt; "no way to read a volume is named '{word}'")?;
                }
                way = Some(named?);
            }
        }
    }
    if way.is_some() {
        bail!("a file is missing after the last word");
    }
    Ok(volumes)
}
