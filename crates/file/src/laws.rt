// What the two kinds of sheet mean that read a file, tied to what their making promises.
ghost use Rattle.std.specs.Prelude.{◌≡◌};
ghost use Rattle.file.specs.contracts.measured.MeasuredSheetSheet.TheImpl.{ghosts as measured_sheet};
ghost use Rattle.file.specs.contracts.pairs.PairSheetSheet.TheImpl.{ghosts as pair_sheet};
ghost use Rattle.file.specs.declared.measured.MeasuredSheet.{MeasuredSheet};
ghost use Rattle.file.specs.declared.pairs.PairSheet.{PairSheet};
ghost use Rattle.file.specs.Sheets.{pair_meaning, measured_meaning};

// A pair sheet means what `PairSheet::read` says that it means.
pub fn pair_sheet_means()
    ensures { (s : PairSheet) → pair_sheet.meaning s ≡ pair_meaning s.words.now }
{}

// A measured sheet means what `MeasuredSheet::read` says that it means.
pub fn measured_sheet_means()
    ensures { (s : MeasuredSheet) → measured_sheet.meaning s ≡ measured_meaning s.words.now }
{}
