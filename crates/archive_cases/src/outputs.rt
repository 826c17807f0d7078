use crate::answers::{Records, compared};
use crate::changes::{Change, InAccount};
use crate::rooms::Room;
use crate::sample::{RECORDS, file, image};
use media::{Framing, Image};
use recalling::write;
use rows::{Notice, Statement};

// What an image holds before it is written.
const MARK: u8 = b'#';

// How many bytes an image has. The sample is 902 bytes in lines and 880 in blocks.
const LINES: [usize; 5] = [902, 901, 820, 0, 989];

const BLOCKS: [usize; 4] = [880, 879, 800, 1000];

pub fn show(rt: &HostRuntime) -> anyhow::Result<()> {
    let room = Room::sample(rt.alloc())?;
    let statement = room.statement();
    println!(rt; "lines written: length; answer; bytes written, bytes that stay")?;
    show_framing(rt, &statement, Framing::Lines, &LINES)?;
    println!(rt; "blocks written: length; answer; bytes written, bytes that stay")?;
    show_framing(rt, &statement, Framing::Blocks, &BLOCKS)?;
    show_thrice(rt, &statement)?;
    show_refused(rt, room)
}

fn show_framing(
    rt: &HostRuntime,
    statement: &Statement,
    framing: Framing,
    lengths: &[usize],
) -> anyhow::Result<()> {
    let file = file(rt.alloc(), framing)?;
    for length in lengths {
        let mut bytes = vec![in rt.alloc(); MARK; *length]?;
        print!(rt; "{length}: ")?;
        let written = show_write(rt, statement, &mut image(&mut bytes, framing))?;
        show_bytes(rt, &file, &bytes, written)?;
    }
    Ok(())
}

// Three times to an image of places for two.
fn show_thrice(rt: &HostRuntime, statement: &Statement) -> anyhow::Result<()> {
    println!(rt; "three times to one image")?;
    let mut bytes = vec![in rt.alloc(); MARK; 1765]?;
    let mut image = image(&mut bytes, Framing::Blocks);
    let mut written = 0;
    for _ in 0..3 {
        written = show_write(rt, statement, &mut image)?;
        println!(rt; "")?;
    }
    let mut twice = file(rt.alloc(), Framing::Blocks)?;
    for record in &RECORDS {
        twice.extend_from_slice(record)?;
    }
    print!(rt; "they are")?;
    show_bytes(rt, &twice, &bytes, written)
}

// Tables that are no statement, to an image without bytes: the tables are asked first.
fn show_refused(rt: &HostRuntime, mut room: Room) -> anyhow::Result<()> {
    println!(rt; "no statement, and no place")?;
    let mut image = image(&mut [], Framing::Blocks);
    for change in [InAccount::Entity(10_000), InAccount::Movements(1)] {
        room.change(Change::Account(0, change))?;
        show_write(rt, &room.statement(), &mut image)?;
        println!(rt; "")?;
    }
    Ok(())
}

// Writes a statement, and gives how many bytes of the image are then written.
fn show_write(rt: &HostRuntime, statement: &Statement, image: &mut Image) -> anyhow::Result<usize> {
    let answer = Records(write(statement, image).map_err(Notice::from));
    let written = image.written();
    print!(rt; "{answer}; written {written}")?;
    Ok(written)
}

// How many bytes behind those written still have their mark, and whether those written are the file.
fn show_bytes(rt: &HostRuntime, file: &[u8], bytes: &[u8], written: usize) -> anyhow::Result<()> {
    let (front, rest) = bytes.split_at(bytes.len().min(written));
    let stay = rest.iter().filter(|byte| **byte == MARK).count();
    println!(rt; ", stay {stay}, {}", compared(front, file))?;
    Ok(())
}
