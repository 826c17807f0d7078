use archiving::ReadRefusal;
use reading::{Cause, Told};
use records::Question;
use rows::Notice;
use std::fmt;

/// Why a holding is refused, in words.
#[derive(Clone, Copy)]
pub struct Refused(pub ReadRefusal);

impl fmt::Display for Refused {
    fn fmt<W: fmt::Write>(&self, f: &mut fmt::Formatter<W>) -> fmt::Result {
        match self.0 {
            ReadRefusal::Carrier(fault, record) => {
                let (place, volume) = (fault.place, fault.volume);
                let why = fault_words(fault.number);
                write!(
                    f,
                    "record {record} is damaged: at byte place {place} of volume {volume}, {why}"
                )
            }
            ReadRefusal::Reading(refusal) => {
                let record = refusal.record;
                let why = cause_words(refusal.cause);
                match Told::from(refusal).column {
                    0 => write!(f, "record {record} is missing: {why}"),
                    column => write!(f, "record {record} is wrong: in column {column}, {why}"),
                }
            }
            ReadRefusal::NoRow(_, record) => {
                write!(f, "record {record} has no row: a table is full")
            }
        }
    }
}

// What a carrier's fault says, which has only its number.
fn fault_words(number: u16) -> &'static str {
    match number {
        21 => "a whole record with its end is missing",
        22 => "a byte reads as no character",
        _ => "it is refused",
    }
}

fn cause_words(cause: Cause) -> &'static str {
    match cause {
        Cause::Length => "it is not 80 bytes long",
        Cause::Character(_) => "a byte is no character",
        Cause::Code => "its code is none of the six",
        Cause::Order => "its kind may not come here",
        Cause::RecordLimit => "a limit is passed",
        Cause::Field(refusal) => question_words(refusal.question),
        Cause::Unfinished => "the file end has not come",
    }
}

fn question_words(question: Question) -> &'static str {
    match question {
        Question::Form => "a field has not its form",
        Question::Value => "a field has a wrong value",
        Question::Agreement => "a field does not agree with what came before",
        Question::Limit => "a limit is passed",
    }
}

/// The numbers of a notice.
#[derive(Clone, Copy)]
pub struct Numbers(pub Notice);

impl fmt::Display for Numbers {
    fn fmt<W: fmt::Write>(&self, f: &mut fmt::Formatter<W>) -> fmt::Result {
        let Notice {
            layer,
            number,
            record,
            place,
            volume,
        } = self.0;
        let layer = layer.number();
        write!(
            f,
            "layer {layer}, number {number}, record {record}, place {place}, volume {volume}"
        )
    }
}
