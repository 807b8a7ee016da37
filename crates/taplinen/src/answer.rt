// The answer that crosses to C.
ghost use Rattle.std.specs.Prelude.{◌≡◌};
ghost use Rattle.std.specs.Result.{result_unwrap_or};
ghost use Rattle.verdict.specs.Verdict.{Accepted, refused, answer_of};
ghost use Rattle.lookup.specs.Kinds.{kind_of, told_number};
ghost use Rattle.taplinen.specs.Answers.{answered};

use lookup::Lookup;
use verdict::Refusal;

// refusal 0: answered, value is the answer; otherwise the number of the refusal, value its place. kind, for lookups: 0 found, 1 absent,
// 2 collided.
#[repr(C)]
#[derive(Clone, Copy, Debug, PartialEq, Eq)]
pub struct Answer {
    pub refusal: u32,
    pub kind: u32,
    pub value: u64,
}

impl Answer {
    // An answer where nothing is refused.
    pub fn new(kind: u32, value: usize) -> Self
        ensures { result ≡ answered Accepted kind value }
    {
        Answer {
            refusal: 0,
            kind,
            value: value as u64,
        }
    }
}

// A refusal, with no kind.
impl From<Refusal> for Answer {
    ghost from_gives = { λ r a. a ≡ answered (refused r) 0 0 };

    fn from(r: Refusal) -> Self {
        Answer {
            refusal: r.0.number(),
            kind: 0,
            value: r.1 as u64,
        }
    }
}

// A number, or a refusal.
impl From<Result<usize, Refusal>> for Answer {
    ghost from_gives = { λ r a. a ≡ answered (answer_of r) 0 (result_unwrap_or r 0) };

    fn from(r: Result<usize, Refusal>) -> Self {
        match r {
            Ok(value) => Answer::new(0, value),
            Err(refusal) => refusal.into(),
        }
    }
}

// What a lookup tells.
impl From<Lookup> for Answer {
    ghost from_gives = { λ l a. a ≡ answered Accepted (kind_of l) (told_number l) };

    fn from(l: Lookup) -> Self {
        Answer::new(l.code(), l.value())
    }
}
