ghost use Rattle.std.specs.Prelude.{◌≡◌};
ghost use Rattle.records.specs.Numbers.{question_number};

/// What is asked of a field, in this order.
#[derive(Clone, Copy, PartialEq, Eq, Debug)]
pub enum Question {
    /// Has it its form?
    Form = 5,
    /// Is its value right by itself?
    Value = 6,
    /// Does it agree with what came before?
    Agreement = 7,
    /// Does a count, a total or the balance stay in its limit?
    Limit = 8,
}

/// The first question that a record fails, and the first column of its field.
#[derive(Clone, Copy, PartialEq, Eq, Debug)]
pub struct FieldRefusal {
    pub question: Question,
    pub column: u8,
}

impl Question {
    /// The number of a refusal at this question.
    // A method: `u16::from(question)` would not say which number.
    pub fn number(self) -> u16
        ensures { result ≡ question_number self }
    {
        self as u16
    }
}
