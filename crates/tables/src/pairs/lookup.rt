// Looking a pair up by halves.
ghost use Rattle.std.specs.Prelude.{◌≡◌, ◌<◌};
ghost use Rattle.pairing.specs.Naming.{names};
ghost use Rattle.tables.specs.Lookup.{Found};

use super::PairTable;
use fileword::layout::{load_of, word_of_pair};

impl PairTable {
    // Where a word stands among the pairs.
    pub(crate) fn find(&self, word: u32) -> Option<usize>
        requires { 0 < word }
        ensures { Found self.now.words self.now.len word result }
    {
        let pairs = &self.words[..self.len];
        pairs
            .binary_search_by_key(&load_of(word), |pair| load_of(*pair))
            .ok()
            .filter(|at| pairs[*at] == word)
    }

    // Whether the pair of marks is there, and not struck.
    pub(crate) fn names(&self, a: u32, b: u32) -> bool
        requires { (a < 128) × (b < 128) }
        ensures { result ≡ names self.now.words a b }
    {
        self.find(word_of_pair(a, b)).is_some()
    }
}
