use charset::characters::CHARACTERS;
use charset::{CodePage, CodeTable};
use std::io;

pub fn show(rt: &HostRuntime) -> io::Result<()> {
    println!(rt; "page 850")?;
    show_page(rt, &CodeTable::from(CodePage::Page850))?;
    println!(rt; "page 284")?;
    show_page(rt, &CodeTable::from(CodePage::Page284))?;
    println!(rt; "made")?;
    let reversed: [u8; 58] = *b"\"=':?>_%,/-;)*&+(<.\xA5ZYXWVUTSRQPONMLKJIHGFEDCBA9876543210 A";
    show_making(rt, &reversed[0..57])?;
    show_making(rt, &reversed[0..56])?;
    show_making(rt, &reversed)?;
    show_making(rt, &[])?;
    show_making(rt, &reversed[1..58])?;
    show_making(rt, &[7; 57])
}

// Each character, its byte, and what that byte reads as; then how many bytes read as none.
fn show_page(rt: &HostRuntime, table: &CodeTable) -> io::Result<()> {
    for character in CHARACTERS {
        let byte = table.encode(character).unwrap_or(0);
        let back = table.decode(byte).unwrap_or(0);
        print!(rt; "{character:02X}-{byte:02X}-{back:02X} ")?;
    }
    let none = (0..=255)
        .filter(|byte| table.decode(*byte).is_none())
        .count();
    println!(rt; "none {none}")
}

fn show_making(rt: &HostRuntime, bytes: &[u8]) -> io::Result<()> {
    let mut table = CodeTable::from(CodePage::Page284);
    match table.make(bytes) {
        Ok(()) => print!(rt; "made")?,
        Err(refusal) => print!(rt; "{} {:?}", refusal.number(), refusal.place())?,
    }
    println!(rt; ", space {:?}", table.encode(b' '))
}
