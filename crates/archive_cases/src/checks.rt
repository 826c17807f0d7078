use crate::answers::Records;
use crate::changes::Change;
use crate::changes::Change::{Account, Lent, Movement, Text};
use crate::changes::InAccount::{
    Currency, Entity, FinalKey, First, Initial, InitialKey, Last, Mode, Movements, Name, Number,
    Office,
};
use crate::changes::InMovement::{
    Amount, Common, Converted, Document, Operation, Origin, Own, Reference, Second, Side, Texts,
    Value,
};
use crate::rooms::Room;
use fields::{Key, Modality};
use recalling::check_tables;
use rows::Notice;

// The most that fourteen digits spell.
const MOST: u64 = 99_999_999_999_999;

// Rows lent, and the counts in them. The sample has 2, 3 and 2 rows; its accounts count 2 and 1 movements, its
// movements 2, 0 and 0 texts.
const COUNTS: [&[Change]; 18] = [
    &[],
    &[Lent(0, 0, 0)],
    &[Lent(0, 3, 2)],
    &[Lent(0, 0, 2)],
    &[Lent(1, 2, 2)],
    &[Lent(2, 2, 2)],
    &[Lent(2, 4, 2)],
    &[Lent(2, 3, 1)],
    &[Lent(2, 3, 3)],
    &[Account(0, Movements(1))],
    &[Account(0, Movements(3))],
    &[Account(0, Movements(4_294_967_295))],
    &[Movement(0, Texts(1))],
    &[Movement(0, Texts(3))],
    &[Account(0, Movements(3)), Movement(0, Texts(3))],
    &[Account(0, Movements(1)), Account(1, Movements(2))],
    &[Account(0, Movements(3)), Account(1, Movements(0))],
    &[Movement(0, Texts(0)), Movement(1, Texts(2))],
];

// Numbers too wide for their fields, at each column where a composed record can have one. It cannot in these:
// - 11: 33 and 51, since each key and each modality is one digit;
// - 22: 28 for the same reason;
// - 23: 3, since the sixth text is refused before a number of three digits comes;
// - 24: 3, which is always 01;
// - 33: 3, 7, 11 and 74, since the account record has the same numbers and is refused first; 21, 26, 40, 45 and 60,
//   since a movement that takes a count, a total or the balance past its limit is refused first; 59, one digit;
// - 88: 3, which is always nines; 21, since a record that would be counted with seven digits is refused first.
const WIDE: [&[Change]; 26] = [
    &[Account(0, Entity(10_000))],
    &[Account(0, Office(10_000))],
    &[Account(0, Number(10_000_000_000))],
    &[Account(0, First(1_000_000))],
    &[Account(0, Last(1_000_000))],
    &[Account(0, Initial(MOST + 1))],
    &[Account(0, Initial(18_446_744_073_709_551_615))],
    &[Account(0, Currency(1_000))],
    &[Account(0, Currency(1_000)), Account(0, Entity(10_000))],
    &[Account(0, Name(0, b'a')), Account(0, Currency(1_000))],
    &[Movement(0, Origin(Some(10_000)))],
    &[Movement(0, Operation(1_000_000))],
    &[Movement(0, Value(1_000_000))],
    &[Movement(0, Common(100))],
    &[Movement(0, Own(1_000))],
    &[Movement(0, Amount(MOST + 1))],
    &[Movement(0, Amount(18_446_744_073_709_551_615))],
    &[Movement(0, Document(10_000_000_000))],
    &[Movement(0, Reference(Some(1_000_000_000_000)))],
    &[
        Movement(0, Reference(Some(1_000_000_000_000))),
        Movement(0, Own(1_000)),
    ],
    &[Movement(0, Converted(1_000, 1))],
    &[Movement(0, Converted(840, MOST + 1))],
    &[Movement(0, Converted(1_000, MOST + 1))],
    &[Movement(2, Document(10_000_000_000))],
    &[Account(1, Entity(10_000))],
    &[Account(0, First(260_230)), Account(1, Entity(10_000))],
];

// Numbers that just fit, and other changes that leave a statement.
const FIT: [&[Change]; 11] = [
    &[
        Account(0, Entity(9_999)),
        Account(0, Office(9_999)),
        Account(0, Number(9_999_999_999)),
    ],
    &[
        Account(0, Entity(0)),
        Account(0, Office(0)),
        Account(0, Number(0)),
    ],
    &[Account(0, Initial(MOST))],
    &[Account(0, Name(0, 165))],
    &[
        Movement(0, Origin(Some(9_999))),
        Movement(0, Own(999)),
        Movement(0, Document(9_999_999_999)),
    ],
    &[Movement(0, Reference(Some(999_999_999_994)))],
    &[Movement(0, Converted(826, MOST))],
    &[
        Movement(0, Amount(MOST)),
        Account(0, FinalKey(Some(Key::Debit))),
    ],
    &[Account(0, Initial(48_250)), Movement(1, Amount(MOST))],
    &[Movement(0, Texts(5)), Lent(2, 3, 5)],
    &[Account(1, FinalKey(Some(Key::Credit)))],
];

// The refusals of the reading follow. Composed records cannot meet 1, 3 and 9: each is 80 bytes long and has one of the
// six codes, and the last is always a file end.
// Refusal 2: bytes that are no characters, in name, reference 2 and texts.
const CHARACTERS: [&[Change]; 9] = [
    &[Account(0, Name(0, b'a'))],
    &[Account(0, Name(25, 0))],
    &[Account(0, Name(3, b'a')), Account(0, Name(1, b'a'))],
    &[Movement(0, Second(0, b'a'))],
    &[Movement(0, Second(15, 255))],
    &[Text(0, b'a')],
    &[Text(37, b'a')],
    &[Text(38, b'a')],
    &[Text(75, b'a')],
];

// Refusals 4 and 5: a sixth text; fields that the modality has or has not.
const FORMS: [&[Change]; 10] = [
    &[Movement(0, Texts(6)), Lent(2, 3, 6)],
    &[Movement(0, Origin(None))],
    &[Movement(0, Reference(None))],
    &[Account(0, Mode(Modality::First))],
    &[Account(0, Mode(Modality::Second))],
    &[
        Account(0, Mode(Modality::Second)),
        Movement(0, Reference(None)),
    ],
    &[Account(1, Mode(Modality::Third))],
    &[Movement(2, Origin(Some(1)))],
    &[Movement(2, Reference(Some(1_016)))],
    &[Movement(2, Second(15, b'X'))],
];

// Refusal 6: values that are wrong by themselves. A final key that is absent is composed as 0.
const VALUES: [&[Change]; 14] = [
    &[Account(0, First(260_230))],
    &[Account(0, First(0))],
    &[Account(0, Last(260_431))],
    &[Account(0, Currency(979))],
    &[Account(1, Currency(979))],
    &[Movement(0, Operation(260_229))],
    &[Movement(0, Value(261_301))],
    &[Movement(0, Common(0))],
    &[Movement(0, Common(18))],
    &[Movement(0, Reference(Some(1_017)))],
    &[Movement(0, Converted(979, 1))],
    &[Account(0, FinalKey(None))],
    &[Account(1, FinalKey(None))],
    &[Account(0, Currency(979)), Account(0, FinalKey(None))],
];

// Refusal 7: values that do not agree with what came before.
const AGREEMENTS: [&[Change]; 11] = [
    &[Account(0, Last(260_228))],
    &[Account(0, First(260_401))],
    &[Movement(0, Operation(260_228))],
    &[Movement(0, Operation(260_401))],
    &[Movement(0, Converted(978, 1))],
    &[Account(0, Currency(840))],
    &[Account(0, FinalKey(Some(Key::Debit)))],
    &[Account(0, InitialKey(Key::Debit))],
    &[Account(0, Initial(0))],
    &[Movement(2, Amount(1_001))],
    &[Movement(0, Amount(MOST))],
];

// Refusal 8: the total of a side, and the balance on either side of zero.
const LIMITS: [&[Change]; 4] = [
    &[
        Movement(0, Amount(MOST)),
        Movement(1, Side(Key::Debit)),
        Movement(1, Amount(1)),
    ],
    &[Movement(1, Amount(MOST))],
    &[Account(0, Initial(48_251)), Movement(1, Amount(MOST))],
    &[
        Account(0, InitialKey(Key::Debit)),
        Account(0, Initial(MOST)),
    ],
];

pub fn show(rt: &HostRuntime) -> anyhow::Result<()> {
    let sample = Room::sample(rt.alloc())?;
    show_cases(rt, &sample, "rows and counts", &COUNTS)?;
    show_cases(rt, &sample, "numbers too wide", &WIDE)?;
    show_cases(rt, &sample, "statements still", &FIT)?;
    show_cases(rt, &sample, "no characters", &CHARACTERS)?;
    show_cases(rt, &sample, "order and forms", &FORMS)?;
    show_cases(rt, &sample, "values", &VALUES)?;
    show_cases(rt, &sample, "agreements", &AGREEMENTS)?;
    show_cases(rt, &sample, "limits", &LIMITS)
}

// Makes the changes of each case in the sample's rows, and checks them.
fn show_cases(
    rt: &HostRuntime,
    sample: &Room,
    title: &str,
    cases: &[&[Change]],
) -> anyhow::Result<()> {
    println!(rt; "{title}")?;
    for case in cases {
        let mut room = sample.clone()?;
        for change in *case {
            room.change(*change)?;
        }
        let answer = check_tables(&room.statement()).map_err(Notice::from);
        println!(rt; "{case:?}: {}", Records(answer))?;
    }
    Ok(())
}
