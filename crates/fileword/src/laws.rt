// The laws of the file check: each function's contract is a theorem.
ghost use Rattle.fileword.specs.Laws.{AcceptedWhenGood, ReadsBack};

// Words without a fault are a good file, a good file has no fault, and there is one verdict.
pub fn accepted_when_good()
    ensures { AcceptedWhenGood }
{}

// What was written into a file is read out of it.
pub fn read_back()
    ensures { ReadsBack }
{}
