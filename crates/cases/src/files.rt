// Files, word by word, and the line that is printed of each.
use fileword::layout::{Kind, word_of_pair};
use page::print::page;
use std::alloc::AllocError;
use std::io;
use std::io::Write;

// A file that is being written.
#[derive(Drop)]
pub struct File {
    bytes: Vec<u8>,
}

impl File {
    // A file of no words.
    fn empty(rt: &HostRuntime) -> File {
        File {
            bytes: Vec::new(rt.alloc()),
        }
    }

    // A file with a head.
    pub fn new(rt: &HostRuntime, marks: u32, k: u32) -> Result<File, AllocError> {
        let mut file = File::empty(rt);
        file.word(Kind::Head, k % 0x100 * 0x100 + marks % 0x100)?;
        Ok(file)
    }

    // One word more.
    pub fn word(&mut self, kind: Kind, load: u32) -> Result<(), AllocError> {
        let word = kind as u32 * 0x1000_0000 + load % 0x1000_0000;
        self.bytes.extend_from_slice(&word.to_le_bytes())
    }

    pub fn pair(&mut self, a: u32, b: u32) -> Result<(), AllocError> {
        self.bytes
            .extend_from_slice(&word_of_pair(a, b).to_le_bytes())
    }

    // All pairs of so many marks, in their order.
    fn all_pairs(&mut self, marks: u32) -> Result<(), AllocError> {
        for a in 0..marks {
            for b in a + 1..marks {
                self.pair(a, b)?;
            }
        }
        Ok(())
    }

    // A mark of a measured file: all its coordinates have the same 14 bits, but the word of its seen z holds `last`.
    fn corner(&mut self, bits: u32, last: u32) -> Result<(), AllocError> {
        let both = bits % 0x4000 * 0x4000 + bits % 0x4000;
        self.word(Kind::PlannedXy, both)?;
        self.word(Kind::PlannedZ, bits)?;
        self.word(Kind::SeenXy, both)?;
        self.word(Kind::SeenZ, last)
    }

    // So many marks, all at the same place.
    fn corners(&mut self, marks: u32, bits: u32) -> Result<(), AllocError> {
        for _ in 0..marks {
            self.corner(bits, bits)?;
        }
        Ok(())
    }

    // Bytes that are 0 behind the others, up to so many bytes in all.
    fn zeros_to(&mut self, size: usize) -> Result<(), AllocError> {
        self.bytes.resize(size, 0)
    }

    // Prints the case's name and what is printed of the file.
    fn show(&self, rt: &HostRuntime, name: &str) -> io::Result<()> {
        print!(rt; "{name}: ")?;
        rt.stdout().write_all(page(&self.bytes).as_bytes())
    }
}

// A head, all pairs of 128 marks, and an end that says so.
fn full(rt: &HostRuntime, end: u32) -> Result<File, AllocError> {
    let mut file = File::new(rt, 128, 16)?;
    file.all_pairs(128)?;
    file.word(Kind::End, end)?;
    Ok(file)
}

// A head, of k 2, and one word more.
fn headed(rt: &HostRuntime, marks: u32, kind: Kind, load: u32) -> Result<File, AllocError> {
    let mut file = File::new(rt, marks, 2)?;
    file.word(kind, load)?;
    Ok(file)
}

pub fn good(rt: &HostRuntime) -> io::Result<()> {
    let mut file = File::new(rt, 5, 2)?;
    pentagon(&mut file)?;
    file.show(rt, "pentagon")?;
    let mut file = File::new(rt, 0, 1)?;
    file.word(Kind::End, 0)?;
    file.show(rt, "no marks")?;
    full(rt, 8128)?.show(rt, "all pairs of 128 marks")?;
    let mut file = headed(rt, 0, Kind::Tolerance, 0)?;
    file.word(Kind::End, 0)?;
    file.show(rt, "no marks, measured")?;
    let mut file = headed(rt, 2, Kind::Tolerance, 0)?;
    file.corner(0x2000, 0x1fff)?;
    file.corner(0x1fff, 0x2000)?;
    file.word(Kind::End, 2)?;
    file.show(rt, "smallest and largest coordinates, tolerance 0")?;
    let mut file = headed(rt, 128, Kind::Tolerance, 268435455)?;
    file.corners(128, 0x2000)?;
    file.word(Kind::End, 128)?;
    file.show(rt, "128 marks measured, tolerance 268435455")
}

// The pairs of a pentagon and its end.
pub fn pentagon(file: &mut File) -> Result<(), AllocError> {
    for (a, b) in [(0, 1), (0, 4), (1, 2), (2, 3), (3, 4)] {
        file.pair(a, b)?;
    }
    file.word(Kind::End, 5)
}

pub fn wrong_kinds(rt: &HostRuntime) -> io::Result<()> {
    let mut file = File::empty(rt);
    file.pair(0, 1)?;
    file.show(rt, "a pair for the head")?;
    headed(rt, 5, Kind::Head, 0)?.show(rt, "a second head")?;
    headed(rt, 5, Kind::PlannedXy, 0)?.show(rt, "a point before the tolerance")?;
    let mut file = headed(rt, 5, Kind::End, 0)?;
    file.word(Kind::End, 0)?;
    file.show(rt, "a second end")?;
    let mut file = full(rt, 8128)?;
    file.word(Kind::Pair, 0)?;
    file.show(rt, "a word after all pairs and their end")?;
    let mut file = headed(rt, 128, Kind::Tolerance, 0)?;
    file.corners(128, 0)?;
    file.word(Kind::End, 128)?;
    file.word(Kind::End, 128)?;
    file.show(rt, "a word after all marks and their end")
}

pub fn spare_bits(rt: &HostRuntime) -> io::Result<()> {
    let mut file = File::empty(rt);
    file.word(Kind::Head, 0x1_0205)?;
    file.show(rt, "bit 16 of the head")?;
    let mut file = headed(rt, 1, Kind::Tolerance, 0)?;
    file.word(Kind::PlannedXy, 0)?;
    file.word(Kind::PlannedZ, 0x4000)?;
    file.show(rt, "bit 14 of a planned z")?;
    let mut file = headed(rt, 128, Kind::Tolerance, 0)?;
    file.corners(127, 0)?;
    file.corner(0, 0x0800_0000)?;
    file.show(rt, "bit 27 of the last seen z")
}

pub fn out_of_range(rt: &HostRuntime) -> io::Result<()> {
    File::new(rt, 129, 1)?.show(rt, "129 marks")?;
    File::new(rt, 128, 0)?.show(rt, "k 0")?;
    File::new(rt, 128, 17)?.show(rt, "k 17")
}

pub fn wrong_pairs(rt: &HostRuntime) -> io::Result<()> {
    headed(rt, 5, Kind::Pair, 0x4001)?.show(rt, "a mark paired with itself")?;
    headed(rt, 5, Kind::Pair, 0x8001)?.show(rt, "the higher mark first")?;
    headed(rt, 5, Kind::Pair, 0x0005)?.show(rt, "a mark that is not there")?;
    let mut file = headed(rt, 5, Kind::Pair, 0x0002)?;
    file.word(Kind::Pair, 0x0002)?;
    file.show(rt, "a pair twice")?;
    let mut file = headed(rt, 5, Kind::Pair, 0x4002)?;
    file.word(Kind::Pair, 0x0004)?;
    file.show(rt, "a pair too late")?;
    let mut file = File::new(rt, 128, 1)?;
    file.all_pairs(128)?;
    file.pair(126, 127)?;
    file.show(rt, "a pair after all pairs")
}

pub fn ends(rt: &HostRuntime) -> io::Result<()> {
    headed(rt, 5, Kind::End, 1)?.show(rt, "an end that counts a pair too many")?;
    full(rt, 8127)?.show(rt, "an end that counts a pair too few")?;
    let mut file = headed(rt, 128, Kind::Tolerance, 0)?;
    file.corners(128, 0)?;
    file.word(Kind::End, 127)?;
    file.show(rt, "an end that counts a mark too few")?;
    File::empty(rt).show(rt, "no word")?;
    File::new(rt, 128, 16)?.show(rt, "a head alone")?;
    let mut file = File::new(rt, 128, 16)?;
    file.all_pairs(128)?;
    file.show(rt, "all pairs and no end")?;
    let mut file = headed(rt, 128, Kind::Tolerance, 0)?;
    file.corners(128, 0)?;
    file.show(rt, "all marks and no end")
}

pub fn sizes(rt: &HostRuntime) -> io::Result<()> {
    let mut file = File::new(rt, 5, 2)?;
    file.zeros_to(5)?;
    file.show(rt, "5 bytes")?;
    file.zeros_to(6)?;
    file.show(rt, "6 bytes")?;
    file.zeros_to(7)?;
    file.show(rt, "7 bytes")?;
    file.zeros_to(65536)?;
    file.show(rt, "65536 bytes")?;
    file.zeros_to(65537)?;
    file.show(rt, "65537 bytes")?;
    file.zeros_to(65540)?;
    file.show(rt, "65540 bytes")
}
