// What is still to be read of a file.
ghost use Rattle.std.specs.Prelude.{◌≡◌, ◌+◌, ◌^◌, ◌<◌, min, length, take, drop};

use crate::part::Part;

// Bytes that are still to be read, and the place of the first of them in the file. (Not the public `Part`, which is any
// bytes and any place: here the place is kept within what a number holds.)
#[derive(Clone, Copy)]
pub(crate) struct Unread<'a> {
    pub bytes: &'a [u8],
    pub place: usize,
    ghost fits: { place + length bytes.now < 2 ^ 64 },
}

impl<'a> Unread<'a> {
    // Splits off the next bytes, so many or as many as are left.
    pub fn split_off(&mut self, size: usize) -> Unread<'a>
        ensures bytes { result.bytes.now ≡ take size self.old.bytes.now }
        ensures place { result.place ≡ self.old.place }
        ensures rest { self.new.bytes.now ≡ drop size self.old.bytes.now }
        ensures after { self.new.place ≡ self.old.place + min size (length self.old.bytes.now) }
    {
        let size = size.min(self.bytes.len());
        let (front, rest) = self.bytes.split_at(size);
        let front = Unread {
            bytes: front,
            place: self.place,
        };
        self.bytes = rest;
        self.place += size;
        front
    }
}

impl<'a> From<Unread<'a>> for Part<'a> {
    ghost from_gives = { λ u p. (p.bytes.now ≡ u.bytes.now) × (p.place ≡ u.place) };

    fn from(unread: Unread<'a>) -> Part<'a> {
        Part {
            bytes: unread.bytes,
            place: unread.place,
        }
    }
}
