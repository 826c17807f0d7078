// Runs the outside cases: what `check` tells of each is compared with the line that it must be.
#![tactic(auto)]

use checking::check;
use checking::checks::ROWS;
use rows::RowStore;
use std::fs;

fn main(rt: HostRuntime) -> anyhow::Result<()> {
    let heap = rt.alloc();
    let mut store = RowStore::new(heap, ROWS, ROWS, ROWS)?;
    let mut tables = store.tables();
    let expected = fs::read_to_string(&rt, "expected")?;
    // Counted in the loop, which also prints those that are not.
    let mut equal = 0u64;
    for (number, line) in expected.lines().enumerate() {
        let path = format!(in heap; "{number:03}.c43")?;
        let input = fs::read(&rt, path.as_str())?;
        let told = check(&input, &mut tables).to_string(heap)?;
        if told.as_str().trim_end() == line.trim_end() {
            equal = equal.saturating_add(1);
        } else {
            println!(rt; "{path}: expected '{line}', found '{told}'")?;
        }
    }
    let cases = expected.lines().count();
    println!(rt; "{equal} of {cases} cases as expected")?;
    Ok(())
}
