//! A page: up to 512 bytes of text, held by value.
ghost use Rattle.std.specs.Prelude.{◌≤◌};

// How many bytes a page has room for.
const ROOM: usize = 512;

// The text is the first `len` bytes; what stands past them is not shown. An array with its length, since no memory is asked for.
#[derive(Clone, Copy)]
pub struct Page {
    bytes: [u8; ROOM],
    len: usize,
    ghost fits: { len ≤ 512 },
}

mod calls;
