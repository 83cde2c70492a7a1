// What can be wrong with a line.

// The first word of an event.
#[derive(Clone, Copy, PartialEq, Eq)]
pub enum Word {
    Call,
    Head,
    Raise,
    Load,
    Store,
    Hit,
}

// A field is told by its place behind the first word, from 1; too few and too many fields by the word that asks for others.
#[derive(Clone, Copy, PartialEq, Eq)]
pub enum Fault {
    TooLong,
    CarriageReturn,
    OtherWord,
    EmptyField(usize),
    NoNumber(usize),
    TooFew(Word),
    TooMany(Word),
    NoDigit,
    OddDigits,
}
