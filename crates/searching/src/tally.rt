// What a search says of its steps.
#[derive(Clone, Copy)]
pub struct Tally {
    // the steps taken, or 4,294,967,295 if more
    pub taken: u32,
    // how many steps are left at most, or 4,294,967,295 if more
    pub left: u32,
    // no branch is open; the other two stand whether it is so or not
    pub settled: bool,
}
