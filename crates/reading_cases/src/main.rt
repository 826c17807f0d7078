// Cases of the reading: offers each line of standard input, and closes and begins anew at each empty line; then fills
// a file to its limits.
#![tactic(auto)]

mod limits;

use reading::{Entry, Reading, Refusal, Told};
use std::io;

fn main(rt: HostRuntime) -> io::Result<()> {
    let mut reading = Reading::new();
    for line in rt.lines(rt.alloc()) {
        let line = line?;
        if line.is_empty() {
            show_close(&rt, &reading)?;
            reading = Reading::new();
        } else {
            show_offer(&rt, &mut reading, line.as_bytes())?;
        }
    }
    limits::show(&rt)
}

fn show_offer(rt: &HostRuntime, reading: &mut Reading, offered: &[u8]) -> io::Result<()> {
    match reading.offer(offered) {
        Ok(entry) => println!(rt; "{}", name(&entry)),
        Err(refusal) => show_refusal(rt, refusal),
    }
}

fn show_close(rt: &HostRuntime, reading: &Reading) -> io::Result<()> {
    match reading.close() {
        Ok(()) => println!(rt; "closed"),
        Err(refusal) => show_refusal(rt, refusal),
    }
}

// A function and no `Display`, which would need a type of its own round an entry.
fn name(entry: &Entry) -> &'static str {
    match entry {
        Entry::Account(..) => "account",
        Entry::Movement(..) => "movement",
        Entry::Text(..) => "text",
        Entry::Equivalent(_) => "equivalent",
        Entry::AccountEnd(_) => "account end",
        Entry::FileEnd(_) => "file end",
    }
}

// recall prints a refusal in other words; one function for both is no plainer.
fn show_refusal(rt: &HostRuntime, refusal: Refusal) -> io::Result<()> {
    let Told {
        number,
        record,
        column,
    } = Told::from(refusal);
    println!(rt; "refused {number}, record {record}, column {column}")
}
