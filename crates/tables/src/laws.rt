// The laws of the tables: each function's contract is a theorem.
ghost use Rattle.std.specs.Prelude.{◌≡◌};
ghost use Rattle.tables.specs.contracts.bits.questions.BitTableSheet.TheImpl.{ghosts as bit_table};
ghost use Rattle.tables.specs.contracts.pairs.questions.PairTableSheet.TheImpl.{ghosts as pair_table};
ghost use Rattle.tables.specs.contracts.pairs.questions.PairTableStrike.TheImpl.{ghosts as struck_pairs};
ghost use Rattle.tables.specs.declared.bits.BitTable.{BitTable};
ghost use Rattle.tables.specs.declared.pairs.PairTable.{PairTable};
ghost use Rattle.tables.specs.Meanings.{bit_meaning, pair_table_meaning, loads};
ghost use Rattle.tables.specs.Laws.{RowsFollow, PairsFollow};

// The agreement of a table of bits determines each of its words.
pub fn rows_follow()
    ensures { RowsFollow }
{}

// The loads and the agreement of a table of pairs determine each of its words.
pub fn pairs_follow()
    ensures { PairsFollow }
{}

// A bit table means what its copying says that it means.
pub fn bit_table_means()
    ensures { (t : BitTable) → bit_table.meaning t ≡ bit_meaning t }
{}

// A pair table means what its copying says that it means, and striking keeps its loads.
pub fn pair_table_means()
    ensures { (t : PairTable) → (pair_table.meaning t ≡ pair_table_meaning t) × (struck_pairs.lasting t ≡ loads t) }
{}
