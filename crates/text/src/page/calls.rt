//! What can be done with a page.
ghost use Rattle.std.specs.Prelude.{◌≡◌, [], ◌∷◌, ◌++◌, take, decimal};
ghost use Rattle.text.specs.Shown.{shown};

use super::{Page, ROOM};

impl Page {
    // A page that shows nothing.
    pub fn new() -> Page
        ensures { shown result ≡ [] }
    {
        Page {
            bytes: [0; ROOM],
            len: 0,
        }
    }

    // The text.
    pub fn as_bytes(&self) -> &[u8]
        ensures { result.now ≡ shown self.now }
    {
        &self.bytes[0..self.len]
    }

    // Puts one byte behind the text; a full page stays as it is. For digits, which as runs of one byte each take longer.
    fn push(&mut self, b: u8)
        ensures { shown self.new ≡ take 512 (shown self.old ++ b ∷ []) }
    {
        if self.len < ROOM {
            self.bytes[self.len] = b;
            self.len += 1;
        }
    }

    // Puts bytes behind the text; what does not fit is left out.
    pub fn push_bytes(&mut self, more: &[u8])
        ensures { shown self.new ≡ take 512 (shown self.old ++ more.now) }
    {
        let end = self.len + (ROOM - self.len).min(more.len());
        self.bytes[self.len..end].copy_from_slice(&more[..end - self.len]);
        self.len = end;
    }

    // Puts a number behind the text, in decimal digits; what does not fit is left out. It calls itself: the library writes digits
    // only by `write!`, which does not promise that it succeeds.
    pub fn push_number(&mut self, n: usize)
        ensures { shown self.new ≡ take 512 (shown self.old ++ decimal n) }
    {
        if n >= 10 {
            self.push_number(n / 10);
        }
        self.push(b'0' + (n % 10) as u8);
    }
}
