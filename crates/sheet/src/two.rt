// Two different marks, by order.
ghost use Rattle.sheet.specs.TwoMarks.{TwoMarks};

// The lower and the higher of two marks below a number; nothing where they are the same or one is not below it.
pub fn two_marks(marks: u32, i: u32, j: u32) -> Option<(u32, u32)>
    ensures { TwoMarks marks i j result }
{
    (i < marks && j < marks && i != j).then_some((i.min(j), i.max(j)))
}
