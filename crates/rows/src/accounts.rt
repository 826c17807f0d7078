use fields::Key;
use values::AccountHead;
use values::parts::NO_HEAD;

/// An account: what its record says, how many movements it has, and the key of its final balance, which is absent
/// until its end has come.
#[derive(Clone, Copy, PartialEq, Eq, Debug)]
pub struct AccountRow {
    pub head: AccountHead,
    pub name: [u8; 26],
    pub movements: u32,
    pub final_key: Option<Key>,
}

/// What an account row can hold before it is filled.
// A constant, which fills arrays, as those of the other rows: a derived Default would put zeros in place of spaces.
pub const UNUSED_ACCOUNT: AccountRow = AccountRow {
    head: NO_HEAD,
    name: [b' '; 26],
    movements: 0,
    final_key: None,
};
