//! Theory: sets of marks, words that hold them, agreement and k-plexes. Each function's contract is a theorem.
#![tactic(auto)]

ghost use Rattle.plex.specs.Laws.{PartsArePlexes, TestFindsPlexes, LeastFound, Counting, WordsHoldSets, WordsCombine, Rises, SightedBothWays};

// Every part of a k-plex is a k-plex.
pub fn parts_are_plexes()
    ensures { PartsArePlexes }
{}

// The test for a k-plex passes just the k-plexes.
pub fn test_finds_plexes()
    ensures { TestFindsPlexes }
{}

// The mark of a set whose number is least is found.
pub fn least_is_found()
    ensures { LeastFound }
{}

// How many marks two sets have together, and how many a set has with one mark more.
pub fn counting_stands()
    ensures { Counting }
{}

// Words are determined by their marks, and have as many as their bits say.
pub fn words_hold_sets()
    ensures { WordsHoldSets }
{}

// What and, or and not do to the bits of words, and what setting or clearing a bit does to the marks.
pub fn words_combine()
    ensures { WordsCombine }
{}

// The rising list of a set has just its marks, in their order.
pub fn lists_rise()
    ensures { Rises }
{}

// Two measured marks agree whichever is named first.
pub fn sighted_both_ways()
    ensures { SightedBothWays }
{}
