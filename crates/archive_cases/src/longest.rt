use crate::answers::{ReadAnswer, Records, compared};
use crate::sample::{image, volume};
use archiving::read;
use media::Framing;
use recalling::{check_tables, write};
use rows::texts::UNUSED_TEXT;
use rows::{AccountRow, Notice, RowStore, Statement, Tables};
use std::alloc::{AllocError, Global};

// Three of these stand in reading_cases too: a crate for three lines is no plainer.
const HEAD: &[u8] =
    b"119999000100000000012603012603312000000000000009781PRUEBA                       ";

const DEBIT: &[u8] =
    b"22        260302260302030001000000000000010000000000                            ";

const CREDIT: &[u8] =
    b"22        260302260302030002000000000000010000000000                            ";

const TEXT: &[u8] =
    b"2301CUOTA MARZO                                                                 ";

const FULL_END: &[u8] =
    b"3399990001000000000199999000000000999999999900000000099999100000000000000978    ";

const LAST_END: &[u8] =
    b"3399990001000000000199999000000000999999999700000000099997100000000000002978    ";

const FILE_END: &[u8] =
    b"88999999999999999999999999                                                      ";

// How many bytes and how many movements the longest file has.
const LENGTH: usize = 80_000_000;

const MOVEMENTS: usize = 999_988;

/// The longest file: read, written, and with a row more or fewer.
pub fn show(rt: &HostRuntime) -> anyhow::Result<()> {
    println!(rt; "the longest file")?;
    let file = longest(rt.alloc())?;
    let mut store = RowStore::new(rt.alloc(), 6, MOVEMENTS, 2)?;
    print!(rt; "a row too few: ")?;
    let few = store.movements.len().saturating_sub(1);
    let (few, _) = store.movements.split_at_mut(few);
    show_read(
        rt,
        &file,
        &mut Tables::new(&mut store.accounts, few, &mut store.texts),
    )?;
    print!(rt; "enough rows: ")?;
    show_read(rt, &file, &mut store.tables())?;
    store.accounts.truncate(5);
    store.texts.truncate(1);
    show_writes(rt, &file, &statement(&store))?;
    show_accounts(rt, &mut store)?;
    show_texts(rt, &mut store)
}

// These rows as the filled rows of tables.
fn statement(store: &RowStore) -> Statement<'_> {
    Statement {
        accounts: &store.accounts,
        movements: &store.movements,
        texts: &store.texts,
    }
}

// Four accounts of the most debits and credits, and one that fills the file to its last record.
fn longest(heap: Global) -> Result<Vec<u8>, AllocError> {
    let mut file = Vec::with_capacity(heap, LENGTH)?;
    for _ in 0..4 {
        add(&mut file, HEAD, 1)?;
        add(&mut file, DEBIT, 99_999)?;
        add(&mut file, CREDIT, 99_999)?;
        add(&mut file, FULL_END, 1)?;
    }
    add(&mut file, HEAD, 1)?;
    add(&mut file, DEBIT, 99_999)?;
    add(&mut file, CREDIT, 99_997)?;
    add(&mut file, TEXT, 1)?;
    add(&mut file, LAST_END, 1)?;
    add(&mut file, FILE_END, 1)?;
    Ok(file)
}

fn add(file: &mut Vec<u8>, record: &[u8], times: u32) -> Result<(), AllocError> {
    for _ in 0..times {
        file.extend_from_slice(record)?;
    }
    Ok(())
}

fn show_read(rt: &HostRuntime, file: &[u8], tables: &mut Tables) -> anyhow::Result<()> {
    let answer = read(&mut volume(file, Framing::Blocks), tables);
    println!(rt; "{}", ReadAnswer(answer))?;
    Ok(())
}

fn show_writes(rt: &HostRuntime, file: &[u8], statement: &Statement) -> anyhow::Result<()> {
    let mut bytes = vec![in rt.alloc(); 0; LENGTH]?;
    print!(rt; "a place too few: ")?;
    show_write(rt, statement, &mut bytes[0..LENGTH - 1])?;
    print!(rt; "enough places: ")?;
    show_write(rt, statement, &mut bytes)?;
    println!(rt; "they are {}", compared(&bytes, file))?;
    Ok(())
}

fn show_write(rt: &HostRuntime, statement: &Statement, bytes: &mut [u8]) -> anyhow::Result<()> {
    let answer = write(statement, &mut image(bytes, Framing::Blocks));
    println!(rt; "{}", Records(answer.map_err(Notice::from)))?;
    Ok(())
}

// The first account gets a debit of the second; and a sixth account comes behind the fifth.
fn show_accounts(rt: &HostRuntime, store: &mut RowStore) -> anyhow::Result<()> {
    let accounts = store.accounts.clone()?;
    if let [first, second, ..] = store.accounts.as_mut_slice() {
        first.movements = 199_999;
        second.movements = 199_997;
    }
    print!(rt; "a debit too many: ")?;
    show_check(rt, &statement(store))?;
    store.accounts = accounts;
    if let Some(first) = store.accounts.first().copied() {
        store.accounts.push(AccountRow {
            movements: 0,
            ..first
        })?;
    }
    print!(rt; "an account too many: ")?;
    show_check(rt, &statement(store))?;
    store.accounts.truncate(5);
    Ok(())
}

// The last movement gets a second text, and then none.
fn show_texts(rt: &HostRuntime, store: &mut RowStore) -> anyhow::Result<()> {
    count_texts(store, 2);
    store.texts.push(UNUSED_TEXT)?;
    print!(rt; "a text too many: ")?;
    show_check(rt, &statement(store))?;
    count_texts(store, 0);
    store.texts.clear();
    print!(rt; "a text fewer: ")?;
    show_check(rt, &statement(store))
}

fn count_texts(store: &mut RowStore, texts: u32) {
    if let Some(row) = store.movements.last_mut() {
        row.texts = texts;
    }
}

fn show_check(rt: &HostRuntime, statement: &Statement) -> anyhow::Result<()> {
    let answer = check_tables(statement).map_err(Notice::from);
    println!(rt; "{}", Records(answer))?;
    Ok(())
}
