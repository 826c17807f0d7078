use charset::{CodePage, CodeTable};
use media::{Framing, Image, Output};
use std::io;

pub fn show(rt: &HostRuntime) -> io::Result<()> {
    println!(rt; "lines put")?;
    let mut bytes = [b'#'; 165];
    show_puts(rt, &mut bytes, Framing::Lines, CodePage::Page850)?;
    show_bytes(rt, &bytes)?;
    println!(rt; "blocks put")?;
    let mut bytes = [b'#'; 161];
    show_puts(rt, &mut bytes, Framing::Blocks, CodePage::Page284)?;
    show_bytes(rt, &bytes)?;
    println!(rt; "no bytes")?;
    show_puts(rt, &mut [], Framing::Blocks, CodePage::Page284)
}

fn show_puts(
    rt: &HostRuntime,
    bytes: &mut [u8],
    framing: Framing,
    page: CodePage,
) -> io::Result<()> {
    let mut image = Image::new(bytes, framing, CodeTable::from(page));
    let letters = [b'A'; 81];
    let signs = [165; 80];
    let mut wrong = [b'A'; 80];
    wrong[79] = b'a';
    show_put(rt, &mut image, &letters[0..79])?;
    show_put(rt, &mut image, &letters)?;
    show_put(rt, &mut image, &wrong)?;
    show_put(rt, &mut image, &letters[0..80])?;
    show_put(rt, &mut image, &signs)?;
    show_put(rt, &mut image, &signs)?;
    show_put(rt, &mut image, &wrong)?;
    println!(rt; "{} bytes written", image.written())
}

fn show_put(rt: &HostRuntime, image: &mut Image, offered: &[u8]) -> io::Result<()> {
    let before = image.places();
    let number = image
        .put(offered)
        .map_or_else(|refusal| refusal.number(), |_| 0);
    println!(rt;
        "{before} places, answer {number}, {} places",
        image.places()
    )
}

// The bytes of an image, each run of equal ones once.
fn show_bytes(rt: &HostRuntime, bytes: &[u8]) -> io::Result<()> {
    for run in bytes.chunk_by(|byte, next| byte == next) {
        print!(rt; "{:02X} ", run[0])?;
    }
    println!(rt; "")
}
