// The entries as they are written: the first by its ZigZag, any other by how far it lies above the one before it.
ghost use Rattle.std.specs.Prelude.{◌≡◌};
ghost use Rattle.std.specs.Iterator.{YieldsFirst, item_count};
ghost use Rattle.format.specs.Keys.{gap, zigzag};
ghost use Rattle.entries.specs.Numbers.{numbers};

// The key above which an entry lies by its ZigZag.
fn before(first: i64) -> i64
    ensures { gap result first ≡ zigzag first }
{
    number::wrapping_sub(first, number::of_bits(number::zigzag_encode(first)))
}

// The numbers of the entries that are left: how far each lies above the one before it.
#[derive(Drop)]
pub struct Gaps<'a> {
    last: i64,
    rest: &'a [i64],
}

impl<'a> Gaps<'a> {
    ghost use Rattle.entries.specs.Gaps.{to_come};

    // Those of all entries. The first is no exception to a walk: it begins where the first entry's gap is its ZigZag. Tried: a test
    // for the first in each turn, with which writing took 8 instructions more an entry.
    pub fn new(entries: &'a [i64]) -> Gaps<'a>
        ensures { to_come result ≡ numbers entries.now }
    {
        let Some(&first) = entries.first() else {
            return Gaps {
                last: 0,
                rest: entries,
            };
        };
        Gaps {
            last: before(first),
            rest: entries,
        }
    }
}

impl<'a> Iterator for Gaps<'a> {
    ghost use Rattle.entries.specs.Gaps.{to_come};

    type Item = u64;

    ghost next_gives = { YieldsFirst to_come };

    ghost remaining = { item_count to_come };

    #[tactic(auto, using(crate::proofs::Walking::none_left))]
    fn next(&mut self) -> Option<u64> {
        let (&entry, rest) = self.rest.split_first()?;
        let number = number::gap(self.last, entry);
        self.last = entry;
        self.rest = rest;
        Some(number)
    }
}
