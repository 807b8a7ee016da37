// What checks answer: nothing was wrong, or the first fault's rule and place.
#![tactic(auto)]

ghost use Rattle.std.specs.Prelude.{◌≡◌};
ghost use Rattle.verdict.specs.Verdict.{number};

use std::error::Error;
use std::fmt;

// The rules that a file or a question can break, by their numbers (FORMAT, "Refusals").
#[derive(Clone, Copy, Debug, PartialEq, Eq)]
pub enum Rule {
    FileSize = 1,
    CutShort = 2,
    Version = 3,
    ZeroWord = 4,
    Count = 5,
    Footer = 6,
    EntryAddress = 7,
    EntryLength = 8,
    EntryHash = 9,
    EntryOrder = 10,
    EntryIndex = 11,
    Duplicate = 12,
    ListPosition = 13,
    SpecialNames = 14,
    Key = 15,
    Node = 16,
    AttributeRange = 17,
    Attribute = 18,
    AttributeText = 19,
    Workspace = 20,
    ChildRange = 21,
    Depth = 22,
    Children = 23,
    AskedText = 24,
    AnswerRoom = 25,
    OutlineRoom = 26,
}

impl Rule {
    // The number that the format gives it.
    pub fn number(self) -> u32
        ensures { result ≡ number self }
    {
        self as u32
    }
}

// A refusal: the rule that is broken, and the place that the format gives it, mostly a file offset.
#[derive(Clone, Copy, Debug, PartialEq, Eq)]
pub struct Refusal(pub Rule, pub usize);

impl fmt::Display for Refusal {
    ghost use Rattle.std.specs.Prelude.{Some};
    ghost use Rattle.verdict.specs.Message.{message};

    ghost output = { λ r. Some (message r) };

    fn fmt<W: fmt::Write>(&self, f: &mut fmt::Formatter<W>) -> fmt::Result {
        let number = self.0.number();
        let place = self.1;
        write!(f, "refused {number} at {place}")
    }
}

impl Error for Refusal {}
