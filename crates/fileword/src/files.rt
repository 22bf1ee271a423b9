ghost use Rattle.std.specs.Prelude.{◌≡◌};
ghost use Rattle.fileword.specs.Faults.{number};

// The two forms of a file.
#[derive(Clone, Copy, PartialEq, Eq, Debug)]
pub enum Form {
    Pairs,
    Measured,
}

// What a good file is: its form, how many marks it has, and the k that it was made for.
#[derive(Clone, Copy, PartialEq, Eq, Debug)]
pub struct Summary {
    pub form: Form,
    pub marks: u32,
    pub k: u32,
}

// What is wrong with a word, in the order in which it is looked for.
#[derive(Clone, Copy, PartialEq, Eq, Debug)]
pub enum Fault {
    // the word's kind may not stand there, or it stands after the end
    WrongKind = 11,
    // a spare bit is set
    SpareBit = 12,
    // more than 128 marks, or k not 1 to 16
    OutOfRange = 13,
    // a pair names a mark that the sheet lacks, or its marks do not rise, or it is not after the pair before it
    WrongPair = 14,
    // the end's load is wrong
    WrongEnd = 15,
    // there is no end; the place is the number of words
    NoEnd = 16,
}

impl Fault {
    // The number of the refusal.
    pub fn number(self) -> u32
        ensures { result ≡ number self }
    {
        self as u32
    }
}

// A file is refused for a fault of the word at a place, counted from 0.
#[derive(Clone, Copy, PartialEq, Eq, Debug)]
pub struct FileRefusal {
    pub fault: Fault,
    pub place: usize,
}

impl FileRefusal {
    pub fn number(self) -> u32
        ensures { result ≡ number self.fault }
    {
        self.fault.number()
    }
}
