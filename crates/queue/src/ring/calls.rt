//! What can be done with a queue.
ghost use Rattle.std.specs.Prelude.{◌≡◌, [], length, ◌==◌};
ghost use Rattle.queue.specs.Waits.{held, waiting, next_place, number, Put, Took};

use super::{Queue, QueueRefusal};

impl QueueRefusal {
    // The number of the refusal.
    pub fn number(self) -> u32
        ensures { result ≡ number self }
    {
        self as u32
    }
}

impl<'a, T: Copy> Queue<'a, T> {
    // A queue in which none waits. The places stay as they are.
    pub fn over(places: &'a mut [T]) -> Queue<'a, T>
        ensures none { waiting result ≡ [] }
        ensures same { held result ≡ places.old }
        ensures first { next_place result ≡ 0 }
        ensures lent { result.places.ghost_name ≡ places.entry.ghost_name }
    {
        Queue {
            places,
            head: 0,
            len: 0,
        }
    }

    // How many wait.
    pub fn len(&self) -> usize
        ensures { result ≡ length (waiting self.now) }
    {
        self.len
    }

    // Whether none waits.
    pub fn is_empty(&self) -> bool
        ensures { result ≡ (length (waiting self.now) == 0) }
    {
        self.len() == 0
    }

    // Puts x behind all that wait; where as many wait as there are places, it is refused.
    pub fn push(&mut self, x: T) -> Result<u32, QueueRefusal>
        ensures { Put self.old x result self.new }
    {
        let all = self.places.len();
        if self.len == all {
            return Err(QueueRefusal::Full);
        }
        // not by `%`: the sum may overflow where elements take no memory
        let room = all - self.head;
        let at = if self.len < room {
            self.head + self.len
        } else {
            self.len - room
        };
        self.places[at] = x;
        self.len += 1;
        // an accepted call that has no other answer answers 0, as the rules say
        Ok(0)
    }

    // Takes the first that waits, if any waits.
    pub fn pop(&mut self) -> Option<T>
        ensures { Took self.old result self.new }
    {
        let left = self.len.checked_sub(1)?;
        // not by `%`: with a division a push and a pop take nearly twice as long
        let head = if self.head == self.places.len() {
            0
        } else {
            self.head
        };
        let x = self.places[head];
        self.head = head + 1;
        self.len = left;
        Some(x)
    }
}
