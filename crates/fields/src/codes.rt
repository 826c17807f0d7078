ghost use Rattle.std.specs.Prelude.{◌≡◌};
ghost use Rattle.fields.specs.Codes.{among, currencies, common_concepts};

// The currencies of accounts, by their three digits.
const CURRENCIES: [u64; 11] = [36, 124, 208, 392, 554, 578, 752, 756, 826, 840, 978];

// The concepts of movements that all banks share.
const COMMON_CONCEPTS: [u64; 19] = [
    1, 2, 3, 4, 5, 6, 7, 8, 9, 10, 11, 12, 13, 14, 15, 16, 17, 98, 99,
];

/// Whether a code names a currency.
pub fn is_currency(code: u64) -> bool
    ensures { result ≡ among code currencies }
{
    is_listed(&CURRENCIES, code)
}

/// Whether a code names a common concept.
pub fn is_common_concept(code: u64) -> bool
    ensures { result ≡ among code common_concepts }
{
    is_listed(&COMMON_CONCEPTS, code)
}

fn is_listed(list: &[u64], code: u64) -> bool
    ensures { result ≡ among code list.now }
{
    list.contains(&code)
}
