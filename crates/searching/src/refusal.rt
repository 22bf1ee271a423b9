// Why a call of a search is refused, each with its number.
#[derive(Clone, Copy)]
pub enum SearchRefusal {
    // the budget of a run is not 1 to 65,536
    BudgetOutOfRange = 51,
    // the offered list is longer than the sheet has marks
    ListTooLong = 52,
    // the offered list has a number that is no mark, or does not rise
    NotRisingMarks = 53,
    // the offered group is no k-plex of the sheet
    NotPlex = 54,
    // the offered group is not larger than the one held
    NotLarger = 55,
    // the search is not settled
    NotSettled = 56,
    // fewer places than the group has marks
    TooFewPlaces = 57,
}
