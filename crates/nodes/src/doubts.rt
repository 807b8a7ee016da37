// What is known of refusal 19 before the nodes are checked.
#![tactic(auto)]

ghost use Rattle.std.specs.Prelude.{◌≡◌, ◌<◌, length, set};
ghost use Rattle.verdict.specs.inner.Tells.{Tells, Sure};
ghost use Rattle.nodes.specs.inner.Doubts.{doubt_of, Doubted, NoDoubt};

// The doubts by the places of the attributes, and whether it is known that there are none, which saves a look at a place. 16 KB: made once, at
// the top, and lent.
#[derive(Drop)]
pub struct Doubts {
    pub known: bool,
    pub places: [u32; 4096],
    pub ghost long: { length places ≡ 4096 },
    pub ghost sure: { Sure (NoDoubt places) known },
}

// The place of the attribute at q. Attributes lie at multiples of 4, and several may share a place.
fn place(q: usize) -> usize
    ensures { (result ≡ doubt_of q) × (result < 4096) }
{
    q / 4 % 4096
}

impl Doubts {
    // Nothing is doubted.
    pub fn new() -> Self
        ensures { NoDoubt result.places }
    {
        Doubts {
            known: true,
            places: [0; 4096],
        }
    }

    // Whether the attribute at q is doubted.
    pub fn doubted(&self, q: usize) -> bool
        ensures { Tells (Doubted self.now.places q) result }
    {
        if self.known {
            return false;
        }
        self.places[place(q)] != 0
    }

    // Doubts the attribute at q, and those that share its place.
    pub fn doubt(&mut self, q: usize)
        ensures { Doubted self.new.places q × (self.new.places ≡ set self.old.places (doubt_of q) 1) }
    {
        self.known = false;
        self.places[place(q)] = 1;
    }
}
