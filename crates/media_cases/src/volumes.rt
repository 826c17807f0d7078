use charset::{CodePage, CodeTable};
use media::{Carrier, Ending, Framing, Image, Volume, copy};
use std::io;

// Two records, cut to a length, with the byte at a place changed: length, place, byte.
type Case = (usize, usize, u8);

const LINES: [Case; 14] = [
    (0, 0, b'A'),
    (164, 0, b'A'),
    (1, 0, b'A'),
    (81, 0, b'A'),
    (82, 0, b'A'),
    (163, 0, b'A'),
    (164, 80, 10),
    (164, 81, 13),
    (164, 162, 32),
    (164, 163, 32),
    (164, 0, b'a'),
    (164, 79, 0),
    (164, 82, 255),
    (164, 161, 164),
];

const BLOCKS: [Case; 8] = [
    (0, 0, 0xC1),
    (160, 0, 0x7B),
    (1, 0, 0xC1),
    (79, 0, 0xC1),
    (159, 0, 0xC1),
    (160, 0, b'A'),
    (160, 79, 13),
    (160, 80, 0xC0),
];

pub fn show(rt: &HostRuntime) -> io::Result<()> {
    println!(rt; "lines")?;
    let mut lines = [b' '; 164];
    lines[80..82].copy_from_slice(b"\r\n");
    lines[162..164].copy_from_slice(b"\r\n");
    for case in LINES {
        let mut bytes = lines;
        show_case(rt, case, &mut bytes, Framing::Lines, CodePage::Page850)?;
    }
    println!(rt; "blocks")?;
    for case in BLOCKS {
        let mut bytes = [0x40; 160];
        show_case(rt, case, &mut bytes, Framing::Blocks, CodePage::Page284)?;
    }
    Ok(())
}

fn show_case(
    rt: &HostRuntime,
    (length, place, byte): Case,
    bytes: &mut [u8],
    framing: Framing,
    page: CodePage,
) -> io::Result<()> {
    if let Some(changed) = bytes.get_mut(place) {
        *changed = byte;
    }
    print!(rt; "{length} bytes, {byte} at {place}: ")?;
    let cut = bytes.get(..length).unwrap_or(bytes);
    show_copy(rt, &mut Volume::new(cut, framing, CodeTable::from(page)))
}

/// Copies a carrier of at most three records and shows how many they were and how it ended.
pub fn show_copy<C: Carrier>(rt: &HostRuntime, carrier: &mut C) -> io::Result<()> {
    print!(rt; "{} volumes, ", carrier.volumes())?;
    let mut bytes = [0; 240];
    let mut image = Image::new(
        &mut bytes,
        Framing::Blocks,
        CodeTable::from(CodePage::Page850),
    );
    match copy(carrier, &mut image) {
        Ok(copied) => {
            print!(rt; "{} records, ", copied.records)?;
            show_ending(rt, copied.ending)
        }
        Err(refusal) => println!(rt; "refused {}", refusal.number()),
    }
}

// recall prints an ending in other words; one function for both is no plainer.
fn show_ending(rt: &HostRuntime, ending: Ending) -> io::Result<()> {
    match ending {
        Ok(()) => println!(rt; "clean"),
        Err(fault) => println!(rt;
            "fault {} at {} in volume {}",
            fault.number, fault.place, fault.volume
        ),
    }
}
