// What is wrong with a letter that stands for nothing.

#[derive(Clone, Copy, PartialEq, Eq, Debug)]
pub struct UnknownLetter;
