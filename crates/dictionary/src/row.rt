// The varints of the entries, of a body that was passed.
ghost use Rattle.std.specs.Prelude.{◌≡◌};
ghost use Rattle.format.specs.Varint.{after_uvarints};
ghost use Rattle.dictionary.specs.Reading.{AllRead, all_read-prop};

use varint::checked::find_any;

// So many varints of a chunk, none of which is refused. The first begins at `start`.
#[derive(Clone, Copy)]
pub(crate) struct Row<'a> {
    pub(crate) chunk: &'a [u8],
    pub(crate) start: usize,
    pub(crate) count: usize,
    ghost read: { AllRead chunk.now start count } by { all_read-prop chunk.now start count },
}

impl<'a> Row<'a> {
    // The place after them.
    pub(crate) fn end(self) -> usize
        ensures { result ≡ after_uvarints self.entry.chunk.now self.entry.start self.entry.count }
    {
        let mut at = self.start;
        for _ in 0..self.count {
            at = find_any(self.chunk, at).unwrap().next;
        }
        at
    }
}
