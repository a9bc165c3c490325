// Bytes written one behind the other.
ghost use Rattle.std.specs.Prelude.{◌≡◌, ◌*◌, length};
ghost use Rattle.meaning.specs.File.{coded};
ghost use Rattle.table.specs.Writing.{Room, Wrote};

use order::ByteOrder;

// Writes into a buffer, from `at` on, in a byte order. The place stands beside the whole buffer, since of a slice that
// gets shorter the proof of a file would no longer see what was written before it.
#[derive(Drop)]
pub(crate) struct Writer<'w, O> {
    pub(crate) order: &'w O,
    pub(crate) out: &'w mut [u8],
    pub(crate) at: usize,
}

impl<O: ByteOrder> Writer<'_, O> {
    pub(crate) fn bytes(&mut self, bytes: &[u8])
        requires { Room self.old (length bytes.now) }
        ensures { Wrote self.old bytes.now self.new }
    {
        let end = self.at + bytes.len();
        self.out[self.at..end].copy_from_slice(bytes);
        self.at = end;
    }

    pub(crate) fn words(&mut self, words: &[u32])
        requires { Room self.old (4 * length words.now) }
        ensures { Wrote self.old (coded O.ByteOrder.order words.now) self.new }
    {
        for word in words {
            let bytes = self.order.word(*word);
            self.bytes(&bytes);
        }
    }
}
