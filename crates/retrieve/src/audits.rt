use crate::holdings::VolumeFile;
use crate::wording::Many;
use guarantee::{Audited, Call, audit};
use media::framing::RECORD_LENGTH;
use reading::Refusal;
use rows::RowStore;
use table::Table;

/// Audits two copies of a statement of so many records: they are offered to a reading, which is then closed; both copies
/// are read; and the first is written once more.
pub fn audit_copies(
    rt: &HostRuntime,
    disk: &VolumeFile,
    tape: &VolumeFile,
    records: u32,
) -> anyhow::Result<()> {
    let heap = rt.alloc();
    let lines = disk.bytes.as_slice().chunks(disk.way.framing.stride());
    let mut calls = lines
        .filter_map(|line| line.get(..RECORD_LENGTH))
        .map(Call::Offer)
        .collect::<Vec<Call<'_>>>(heap)?;
    calls.push(Call::Close)?;
    let mut answers = vec![in heap; None; calls.len()]?;
    let mut answers = Table::new(&mut answers);
    let most = calls.len();
    let mut first = RowStore::new(heap, most, most, most)?;
    let mut second = RowStore::new(heap, most, most, most)?;
    let mut bytes = vec![in heap; 0; disk.way.length(records)]?;
    let audited = audit(
        calls.as_slice(),
        &mut answers,
        &mut disk.carrier(),
        &mut first.tables(),
        &mut tape.carrier(),
        &mut second.tables(),
        &mut disk.way.image(&mut bytes),
    );
    println!(rt; "Audit of both copies")?;
    tell_answers(rt, answers.rows())?;
    tell_audit(rt, &audited, bytes.as_slice() == disk.bytes.as_slice())
}

// How many of the calls on a reading were granted.
fn tell_answers(rt: &HostRuntime, answers: &[Option<Refusal>]) -> anyhow::Result<()> {
    let granted = answers.iter().filter(|answer| answer.is_none()).count();
    let calls = Many(answers.len() as u64, "call");
    println!(rt; "  a reading grants {granted} of {calls}, the last a close")?;
    Ok(())
}

fn tell_audit(rt: &HostRuntime, audited: &Audited, same: bool) -> anyhow::Result<()> {
    let found = if audited.first.is_err() || audited.second.is_err() {
        "a copy is refused"
    } else if audited.written.is_ok() && same {
        "both are read as correct files, and the first is written again byte by byte"
    } else {
        "both are read, but the first is not written again"
    };
    println!(rt; "  {found}")?;
    Ok(())
}
