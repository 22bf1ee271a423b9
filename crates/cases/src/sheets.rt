// Sheets, and what they answer.
use file::measured::MeasuredSheet;
use file::pairs::PairSheet;
use fileword::files::FileRefusal;
use sheet::entry::{Entry, EntryRefusal};
use sheet::kinds::Sheet;
use std::io;

// Prints each mark with those that agree with it, one by one and as a row.
fn show<S: Sheet>(rt: &HostRuntime, name: &str, sheet: &S) -> io::Result<()> {
    let marks = sheet.marks();
    println!(rt; "{name}: {marks} marks")?;
    for i in 0..marks {
        show_mark(rt, sheet, i, marks)?;
    }
    Ok(())
}

fn show_mark<S: Sheet>(rt: &HostRuntime, sheet: &S, i: u32, marks: u32) -> io::Result<()> {
    let [w0, w1, w2, w3] = sheet.row(i);
    print!(rt; "  {i} row {w0:x} {w1:x} {w2:x} {w3:x} agrees with")?;
    for j in (0..marks).filter(|j| sheet.agree(i, *j)) {
        print!(rt; " {j}")?;
    }
    println!(rt; "")
}

// The number of the answer to an entered pair.
fn answer(entered: Result<u32, EntryRefusal>) -> u32 {
    entered.unwrap_or_else(EntryRefusal::number)
}

// A pentagon, entered in words that hold something else, one pair twice.
pub fn entered(rt: &HostRuntime) -> io::Result<()> {
    let mut words = [0xffff_ffff; 7];
    let Ok(mut entry) = Entry::begin(&mut words, 5) else {
        return println!(rt; "entered pentagon: not begun");
    };
    let first = answer(entry.enter(0, 1));
    let again = answer(entry.enter(1, 0));
    println!(rt; "entered {first}, again {again}")?;
    for (i, j) in [(0, 4), (1, 2), (2, 3), (3, 4)] {
        let _ = entry.enter(i, j);
    }
    let outside = answer(entry.enter(5, 5));
    let same = answer(entry.enter(4, 4));
    println!(rt; "a mark outside {outside}, the same mark {same}")?;
    let sheet = entry.seal();
    show(rt, "entered pentagon", &sheet)?;
    let last = words[6];
    println!(rt; "a word behind the rows {last:x}")
}

// The number of the answer to a beginning in so many words; 0 where it begins.
fn beginning(words: &mut [u32], marks: u32) -> u32 {
    match Entry::begin(words, marks) {
        Ok(_) => 0,
        Err(not_begun) => not_begun.refusal.number(),
    }
}

pub fn beginnings(rt: &HostRuntime) -> io::Result<()> {
    let mut words = [0; 512];
    let many = beginning(&mut words, 129);
    let all = beginning(&mut words, 128);
    let few = beginning(&mut words[0..511], 128);
    let none = beginning(&mut words[0..0], 0);
    println!(rt;
        "129 marks {many}, 128 in 512 words {all}, in 511 words {few}, no marks in no words {none}"
    )
}

// Shows the sheet of a file, or why the file is refused.
fn show_read<S: Sheet + Drop>(
    rt: &HostRuntime,
    name: &str,
    read: Result<S, FileRefusal>,
) -> io::Result<()> {
    match read {
        Ok(sheet) => show(rt, name, &sheet),
        Err(refusal) => {
            let number = refusal.number();
            let place = refusal.place;
            println!(rt; "{name}: refused {number} at word {place}")
        }
    }
}

const PENTAGON: [u32; 7] = [
    0x10000205, 0x20000001, 0x20000004, 0x20004002, 0x20008003, 0x2000C004, 0xF0000005,
];

pub fn pairs(rt: &HostRuntime) -> io::Result<()> {
    show_read(rt, "pentagon file", PairSheet::read(&PENTAGON))?;
    show_read(
        rt,
        "pentagon file, read as measured",
        MeasuredSheet::read(&PENTAGON),
    )?;
    show_read(
        rt,
        "measured file, read as pairs",
        PairSheet::read(&[0x10000101, 0x70000000, 0x20000001]),
    )?;
    show_read(
        rt,
        "a head alone, read as measured",
        MeasuredSheet::read(&[0x10000101]),
    )?;
    show_read(rt, "no marks", PairSheet::read(&[0x10000100, 0xF0000000]))?;
    wide(rt)
}

// Pairs whose marks stand in each of the four words of a row.
fn wide(rt: &HostRuntime) -> io::Result<()> {
    let Ok(sheet) = PairSheet::read(&[0x10000180, 0x2000007F, 0x2007C020, 0x2007C060, 0xF0000003])
    else {
        return println!(rt; "wide pairs: refused");
    };
    for i in [0u32, 31, 127] {
        show_mark(rt, &sheet, i, 128)?;
    }
    Ok(())
}

// A measured file of two marks, each by the words of its planned and seen point.
fn measured_pair(tolerance: u32, first: [u32; 4], second: [u32; 4]) -> [u32; 11] {
    let head = 0x10000102;
    let tolerance = 0x7000_0000 + tolerance % 0x1000_0000;
    let end = 0xF000_0002;
    let [a, b, c, d] = first;
    let [e, f, g, h] = second;
    [head, tolerance, a, b, c, d, e, f, g, h, end]
}

// Planned (0, 0, 0) and (3, 4, 0), seen (0, 0, 0) and (0, 0, 6): the squares are 25 and 36.
fn distances(tolerance: u32) -> [u32; 11] {
    measured_pair(
        tolerance,
        [0x3000_0000, 0x4000_0000, 0x5000_0000, 0x6000_0000],
        [0x3000_C004, 0x4000_0000, 0x5000_0000, 0x6000_0006],
    )
}

// Planned at both ends of the range, seen at one place: the planned square is 805208067.
fn ends_of_range(tolerance: u32) -> [u32; 11] {
    measured_pair(
        tolerance,
        [0x3800_2000, 0x4000_2000, 0x5000_0000, 0x6000_0000],
        [0x37ff_dfff, 0x4000_1fff, 0x5000_0000, 0x6000_0000],
    )
}

pub fn measured(rt: &HostRuntime) -> io::Result<()> {
    show_read(
        rt,
        "25 and 36, tolerance 11",
        MeasuredSheet::read(&distances(11)),
    )?;
    show_read(
        rt,
        "25 and 36, tolerance 10",
        MeasuredSheet::read(&distances(10)),
    )?;
    show_read(
        rt,
        "the whole range, tolerance 268435455",
        MeasuredSheet::read(&ends_of_range(268435455)),
    )?;
    show_read(
        rt,
        "the whole range, tolerance 0",
        MeasuredSheet::read(&ends_of_range(0)),
    )
}
