/// What a stored viewer answers.
#[derive(Clone, Copy, Debug, PartialEq, Eq)]
pub enum Law {
    /// The number of bytes of a text.
    Length,
    /// Two times a number.
    Twice,
    /// The sum of two numbers.
    Sum,
}
