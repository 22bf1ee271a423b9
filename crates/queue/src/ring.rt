//! A queue around places that are lent, and its one refusal.
ghost use Rattle.std.specs.Prelude.{◌≤◌, length};

// Those that wait stand from `head` on, around the end of the places. The places are the caller's, so no `VecDeque`.
#[derive(Drop)]
pub struct Queue<'a, T> {
    places: &'a mut [T],
    head: usize,
    len: usize,
    ghost fits: { len ≤ length places.now },
    ghost inside: { head ≤ length places.now },
}

// Why an element may not wait.
#[derive(Clone, Copy)]
pub enum QueueRefusal {
    // as many wait as there are places
    Full = 45,
}

mod calls;
