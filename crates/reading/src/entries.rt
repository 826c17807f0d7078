use values::{AccountEnd, AccountHead, Equivalent, Movement};

/// What a record that is taken says: its kind and numbers, with its name, texts or second reference as parts of the
/// offered record.
#[derive(Clone, Copy, PartialEq, Eq, Debug)]
pub enum Entry<'a> {
    Account(AccountHead, &'a [u8]),
    Movement(Movement, &'a [u8]),
    Text(u32, &'a [u8], &'a [u8]),
    Equivalent(Equivalent),
    AccountEnd(AccountEnd),
    FileEnd(u32),
}
