ghost use Rattle.std.specs.Prelude.{◌≡◌};
ghost use Rattle.fields.specs.Reference.{check_digit, is_reference};

// The weights of a reference's digits before its check digit, counted from the right.
const WEIGHTS: [u64; 11] = [2, 3, 4, 5, 6, 7, 8, 9, 2, 3, 4];

/// The check digit of a number of eleven digits.
#[tactic(auto, using(crate::proofs::Reference::weighted_step))]
pub fn check_digit(number: u64) -> u8
    ensures { result ≡ check_digit number }
{
    // A fold would carry the sum and the rest as a pair, and is no plainer.
    let mut sum = 0;
    let mut rest = number;
    for weight in WEIGHTS {
        sum += weight * (rest % 10);
        rest /= 10;
    }
    match sum % 11 {
        10 => 0,
        remainder => remainder as u8,
    }
}

/// Whether the last digit of a reference is the check digit of those before it.
pub fn is_reference(reference: u64) -> bool
    ensures { result ≡ is_reference reference }
{
    reference % 10 == u64::from(check_digit(reference / 10))
}
