// What waits to be looked at again.
ghost use Rattle.coprune.specs.Waiting.{NoneWaits, PutIfRoom, Adds, TakesNext};

use crate::look::Pair;
use queue::ring::Queue;

// The marks and the pairs that are to be looked at again. The sheet and the limits are no part of it: each contract would have to
// say that they stay the same.
#[derive(Drop)]
pub(crate) struct Waiting<'a> {
    marks: Queue<'a, u32>,
    pairs: Queue<'a, Pair>,
}

// What comes next: a mark, all of whose agreements are to be looked at, or one agreement.
#[derive(Clone, Copy)]
pub(crate) enum Next {
    Mark(u32),
    Pair(Pair),
}

// Has x wait. Where the queue is full it does not: a later sweep over all agreements looks at it.
fn wait<T: Copy>(queue: &mut Queue<T>, x: T)
    ensures { PutIfRoom queue.old x queue.new }
{
    let _ = queue.push(x);
}

impl<'a> Waiting<'a> {
    // Nothing waits yet.
    pub(crate) fn over(mark_space: &'a mut [u32], pair_space: &'a mut [Pair]) -> Waiting<'a>
        ensures { NoneWaits result }
    {
        Waiting {
            marks: Queue::over(mark_space),
            pairs: Queue::over(pair_space),
        }
    }

    // Has it wait, a mark behind the marks and a pair behind the pairs.
    pub(crate) fn add(&mut self, next: Next)
        ensures { Adds self.old next self.new }
    {
        match next {
            Next::Mark(mark) => wait(&mut self.marks, mark),
            Next::Pair(pair) => wait(&mut self.pairs, pair),
        }
    }

    // Takes what has waited longest, a mark before a pair.
    pub(crate) fn next(&mut self) -> Option<Next>
        ensures { TakesNext self.old result self.new }
    {
        // no `or_else`: its contract leaves open whether the pairs stay where a mark is there
        match self.marks.pop() {
            Some(mark) => Some(Next::Mark(mark)),
            None => self.pairs.pop().map(Next::Pair),
        }
    }
}
