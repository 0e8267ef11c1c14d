//! What comes of a step.

use std::fmt;

/// What a step answered.
#[derive(Clone, Copy, Debug, PartialEq, Eq)]
pub enum Answer {
    /// The right answer.
    Right,
    /// That memory or a thread was refused. Where the step can be gone on with, it led to the right answer in the end.
    Refused,
    /// Another answer.
    Wrong,
}

impl Answer {
    /// This answer if what it led to is right.
    pub fn if_right(self, is_right: bool) -> Answer {
        if is_right { self } else { Answer::Wrong }
    }
}

impl fmt::Display for Answer {
    fn fmt<W: fmt::Write>(&self, f: &mut fmt::Formatter<W>) -> fmt::Result {
        match self {
            Answer::Right => write!(f, "right"),
            Answer::Refused => write!(f, "refused"),
            Answer::Wrong => write!(f, "wrong"),
        }
    }
}
