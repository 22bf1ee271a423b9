//! From a file's bytes to the bytes that are printed of it.
#![tactic(auto)]

pub mod print;
pub mod verdict;
mod words;

#[cfg(test)]
mod tests {
    use crate::print::page;

    // A pentagon for k 2, and no file at all.
    #[test]
    fn pentagon_and_nothing(rt: HostRuntime) {
        let pentagon = [
            5, 2, 0, 16, 1, 0, 0, 32, 4, 0, 0, 32, 2, 64, 0, 32, 3, 128, 0, 32, 4, 192, 0, 32, 5,
            0, 0, 240,
        ];
        assert_eq!(rt; page(&pentagon).as_bytes(), &b"MARKS 5 K 2\n"[..]);
        assert_eq!(rt; page(&[]).as_bytes(), &b"REFUSED 16 WORD 0\n"[..]);
    }
}
