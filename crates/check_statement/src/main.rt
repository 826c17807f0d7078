// Checks the statement on standard input, lines in page 850, and prints one line.
#![tactic(auto)]

use checking::check;
use checking::checks::{MOST_BYTES, ROWS};
use rows::RowStore;
use std::io;
use std::io::Read;

fn main(rt: HostRuntime) -> anyhow::Result<()> {
    let heap = rt.alloc();
    // One byte more than are checked tells an input that is too long.
    let mut input = vec![in heap; 0; MOST_BYTES + 1]?;
    let len = read_input(&rt, &mut input)?;
    input.truncate(len);
    let mut store = RowStore::new(heap, ROWS, ROWS, ROWS)?;
    let mut tables = store.tables();
    let report = check(&input, &mut tables);
    print!(rt; "{report}")?;
    Ok(())
}

// Fills the bytes from standard input as far as it goes, and tells how many came. A pipe may give them in pieces.
// No `read_to_end`: it asks for less at first, which cuts a message of a socket, and goes on after an interrupted read.
fn read_input(rt: &HostRuntime, bytes: &mut [u8]) -> io::Result<usize> {
    let mut stdin = rt.stdin();
    let mut len = 0;
    for _ in 0..bytes.len() {
        let count = stdin.read(&mut bytes[len..])?;
        if count == 0 {
            break;
        }
        len += count;
    }
    Ok(len)
}
