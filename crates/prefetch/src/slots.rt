// The text attributes of a batch.
ghost use Rattle.std.specs.Prelude.{◌≡◌, ◌+◌, ◌*◌, ◌≤◌, ◌<◌, ◌^◌, length};
ghost use Rattle.layout.specs.Edition.{attribute_size};
ghost use Rattle.layout.specs.declared.Edition.TheVariants.{Bits64};
ghost use Rattle.prefetch.specs.inner.Slots.{TakenFrom};

use layout::ATTRIBUTE_SIZE;
use nodes::fields;
use words::AttributeType;

// How many slots are taken, and the element to go on with.
#[derive(Clone, Copy)]
pub struct Taken {
    pub count: usize,
    pub next: usize,
}

// Takes the texts among the attributes of a row from element el on, until the slots are full or the row ends. A slot is written before it
// is known whether it is kept: texts come and go too irregularly for a branch.
pub fn take_texts(b: &[u8], first: usize, el: usize, used: usize, slots: &mut [u32; 64]) -> Taken
    requires { (first + used * attribute_size Bits64 ≤ length b.now) × (length b.now < 2 ^ 32) × (el ≤ used) × (length slots.old ≡ 64) }
    ensures { TakenFrom Bits64 b.now first el used result slots.new }
{
    let mut n = 0;
    for e in el..used {
        if n == 64 {
            return Taken { count: n, next: e };
        }
        let q = first + e * ATTRIBUTE_SIZE;
        slots[n] = q as u32;
        n += usize::from(words::kind(fields::type_word(b, q)) == AttributeType::Text);
    }
    Taken {
        count: n,
        next: used,
    }
}
