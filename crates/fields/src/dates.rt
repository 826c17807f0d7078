ghost use Rattle.std.specs.Prelude.{◌≡◌};
ghost use Rattle.fields.specs.Calendar.{month_length, real_day, day_order, not_before};

/// A date: the number that its six digits spell, two each for the year, the month and the day.
#[derive(Clone, Copy, PartialEq, Eq, Debug)]
pub struct Date {
    pub digits: u32,
}

impl Date {
    /// Whether the calendar has this day.
    pub fn is_real_day(self) -> bool
        ensures { result ≡ real_day self.digits }
    {
        let year = self.digits / 10_000;
        let month = self.digits / 100 % 100;
        let day = self.digits % 100;
        year <= 99 && (1..=days_in_month(year, month)).contains(&day)
    }

    /// Whether this date is the other or a later one.
    pub fn not_before(self, other: Date) -> bool
        ensures { result ≡ not_before self.digits other.digits }
    {
        self.order() >= other.order()
    }

    // A number that grows with the date: the years 82 to 99 come before the years 00 to 81.
    // No `Ord`: numbers that are no dates can share one order, and the rules want one function to compare by.
    fn order(self) -> u64
        ensures { result ≡ day_order self.digits }
    {
        let digits = u64::from(self.digits);
        if digits >= 820_000 {
            digits
        } else {
            digits + 1_000_000
        }
    }
}

// How many days a month has; a number that is no month has none.
fn days_in_month(year: u32, month: u32) -> u32
    ensures { result ≡ month_length year month }
{
    match month {
        1 | 3 | 5 | 7 | 8 | 10 | 12 => 31,
        4 | 6 | 9 | 11 => 30,
        2 if year % 4 == 0 => 29,
        2 => 28,
        _ => 0,
    }
}
