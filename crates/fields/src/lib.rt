// The fields of a record: decimal numbers, blanks, dates, keys, modalities, code lists, references.
#![tactic(auto)]

pub mod blanks;
pub mod codes;
pub mod dates;
pub mod decimals;
pub mod digits;
pub mod keys;
pub mod modalities;
pub mod references;

pub use blanks::{is_blank, write_blank};
pub use codes::{is_common_concept, is_currency};
pub use dates::Date;
pub use decimals::{TooWide, read_number, write_number};
pub use digits::UnknownDigit;
pub use keys::Key;
pub use modalities::Modality;
pub use references::{check_digit, is_reference};
