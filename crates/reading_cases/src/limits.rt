use reading::Reading;
use std::io;

// Three of these stand in archive_cases too: a crate for three lines is no plainer.
const HEAD: &[u8] =
    b"119999000100000000012603012603312000000000000009781PRUEBA                       ";

const DEBIT: &[u8] =
    b"22        260302260302030001000000000000000000000000                            ";

const CREDIT: &[u8] =
    b"22        260302260302030002000000000000000000000000                            ";

const TEXT: &[u8] =
    b"2301CUOTA MARZO                                                                 ";

const FULL_END: &[u8] =
    b"3399990001000000000199999000000000000009999900000000000000100000000000000978    ";

const LAST_END: &[u8] =
    b"3399990001000000000199999000000000000009999800000000000000200000000000000978    ";

const FILE_END: &[u8] =
    b"88999999999999999999999999                                                      ";

/// Fills a file to its last record: accounts of the most debits and credits, and one of each too many.
pub fn show(rt: &HostRuntime) -> io::Result<()> {
    let mut reading = Reading::new();
    for _ in 0..4 {
        show_offers(rt, &mut reading, HEAD, 1)?;
        show_offers(rt, &mut reading, DEBIT, 100_000)?;
        show_offers(rt, &mut reading, CREDIT, 100_000)?;
        show_offers(rt, &mut reading, FULL_END, 1)?;
    }
    show_offers(rt, &mut reading, HEAD, 1)?;
    show_offers(rt, &mut reading, DEBIT, 99_999)?;
    show_offers(rt, &mut reading, CREDIT, 99_999)?;
    show_offers(rt, &mut reading, TEXT, 1)?;
    show_offers(rt, &mut reading, LAST_END, 1)?;
    show_offers(rt, &mut reading, HEAD, 1)?;
    show_offers(rt, &mut reading, FILE_END, 1)?;
    crate::show_close(rt, &reading)
}

// Offers a record so many times; tells how many were taken, and each refusal.
fn show_offers(
    rt: &HostRuntime,
    reading: &mut Reading,
    offered: &[u8],
    times: u32,
) -> io::Result<()> {
    let before = reading.taken();
    for _ in 0..times {
        if let Err(refusal) = reading.offer(offered) {
            crate::show_refusal(rt, refusal)?;
        }
    }
    println!(rt; "taken {}", reading.taken().saturating_sub(before))
}
