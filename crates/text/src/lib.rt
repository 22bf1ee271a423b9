//! Text in pages: at most 512 bytes, held by value, and nothing allocated.
#![tactic(auto)]

pub mod page;

pub use page::Page;

#[cfg(test)]
mod tests {
    use super::Page;

    // Words and numbers follow one another.
    #[test]
    fn words_and_numbers(rt: HostRuntime) {
        let mut page = Page::new();
        page.push_bytes(b"MARKS ");
        page.push_number(128);
        page.push_number(0);
        assert_eq!(rt; page.as_bytes(), &b"MARKS 1280"[..]);
    }
}
