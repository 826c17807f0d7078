use crate::answers::{show_carrier, show_read};
use crate::rooms::{Room, Size};
use crate::sample::{file, put, volume};
use media::Framing;
use std::alloc::{AllocError, Global};

// The rows lent: accounts, movements and texts. The sample needs 2, 3 and 2.
const ROOMS: [Size; 9] = [
    [2, 3, 2],
    [1, 3, 2],
    [2, 2, 2],
    [2, 3, 1],
    [0, 3, 2],
    [2, 0, 2],
    [2, 3, 0],
    [0, 0, 0],
    [4, 4, 4],
];

// Where a file that stands on its volume twice is cut, in records.
const CUTS: [usize; 8] = [0, 1, 5, 7, 10, 11, 12, 22];

// The whole file, one damaged at its sixth record, the whole one, nothing, and the whole one: how many bytes it has,
// and which one at place 405.
const AGAIN: [(usize, u8); 5] = [
    (880, b' '),
    (880, b'a'),
    (880, b' '),
    (0, b' '),
    (880, b' '),
];

// What marks a row before a read.
const MARK: u32 = 77_777;

pub fn show(rt: &HostRuntime) -> anyhow::Result<()> {
    let file = file(rt.alloc(), Framing::Blocks)?;
    println!(rt;
        "rows lent: answer; rows filled, counts of the last account and movement, rows untouched"
    )?;
    for size in ROOMS {
        show_room(rt, &file, size)?;
    }
    println!(rt; "records on the carrier")?;
    show_cuts(rt, &file)?;
    println!(rt; "the same tables again")?;
    show_again(rt)?;
    println!(rt; "what is left on a carrier")?;
    show_rest(rt, &file)?;
    println!(rt; "a broken carrier again")?;
    show_broken(rt, &file)
}

// Reads the sample over rows that are marked, and tells which still have their mark.
fn show_room(rt: &HostRuntime, file: &[u8], size: Size) -> anyhow::Result<()> {
    let [a, m, t] = size;
    print!(rt; "{a} {m} {t}: ")?;
    let mut room = marked(rt.alloc(), size)?;
    show_filling(rt, file, &mut room)?;
    let accounts = room
        .rows
        .accounts
        .iter()
        .filter(|row| row.movements == MARK);
    let movements = room.rows.movements.iter().filter(|row| row.texts == MARK);
    let texts = room.rows.texts.iter().filter(|row| row.first[0] == 0);
    println!(rt;
        ", untouched {} {} {}",
        accounts.count(),
        movements.count(),
        texts.count()
    )?;
    Ok(())
}

// So many rows, each with its mark.
fn marked(heap: Global, size: Size) -> Result<Room, AllocError> {
    let mut room = Room::new(heap, size)?;
    for row in &mut room.rows.accounts {
        row.movements = MARK;
    }
    for row in &mut room.rows.movements {
        row.texts = MARK;
    }
    for row in &mut room.rows.texts {
        row.first = [0; 38];
    }
    Ok(room)
}

fn show_filling(rt: &HostRuntime, file: &[u8], room: &mut Room) -> anyhow::Result<()> {
    let mut tables = room.tables();
    show_read(rt, &mut volume(file, Framing::Blocks), &mut tables)?;
    let counted = tables.accounts.last().map_or(0, |(_, row)| row.movements);
    let texted = tables.movements.last().map_or(0, |(_, row)| row.texts);
    print!(rt; ", counted {counted} {texted}")?;
    Ok(())
}

// Ends early, just at its end, and too late.
fn show_cuts(rt: &HostRuntime, file: &[u8]) -> anyhow::Result<()> {
    let mut twice = Vec::new(rt.alloc());
    twice.extend_from_slice(file)?;
    twice.extend_from_slice(file)?;
    for records in CUTS {
        print!(rt; "{records}: ")?;
        let (front, _) = twice.split_at(twice.len().min(records.saturating_mul(80)));
        show_carrier(rt, &mut volume(front, Framing::Blocks))?;
    }
    Ok(())
}

// Reads files of other lengths and bytes into the same tables.
fn show_again(rt: &HostRuntime) -> anyhow::Result<()> {
    let mut room = Room::new(rt.alloc(), [4, 4, 4])?;
    let mut tables = room.tables();
    for (length, byte) in AGAIN {
        let mut bytes = file(rt.alloc(), Framing::Blocks)?;
        put(&mut bytes, 405, byte);
        bytes.truncate(length);
        show_read(rt, &mut volume(&bytes, Framing::Blocks), &mut tables)?;
        println!(rt; "")?;
    }
    Ok(())
}

// The second account finds no row; the next reads go on behind it.
fn show_rest(rt: &HostRuntime, file: &[u8]) -> anyhow::Result<()> {
    let mut room = Room::new(rt.alloc(), [1, 3, 2])?;
    let mut tables = room.tables();
    let mut volume = volume(file, Framing::Blocks);
    for _ in 0..5 {
        show_read(rt, &mut volume, &mut tables)?;
        println!(rt; "")?;
    }
    Ok(())
}

// The last record is cut off by one byte: the fault is told each time.
fn show_broken(rt: &HostRuntime, file: &[u8]) -> anyhow::Result<()> {
    let (front, _) = file.split_at(file.len().saturating_sub(1));
    let mut volume = volume(front, Framing::Blocks);
    show_carrier(rt, &mut volume)?;
    show_carrier(rt, &mut volume)
}
