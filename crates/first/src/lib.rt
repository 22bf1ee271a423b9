//! The group that a search holds first.
#![tactic(auto)]

mod degrees;
pub mod group;

#[cfg(test)]
mod tests {
    use crate::group::first_group;
    use sheet::entry::Entry;
    use tables::bits::BitTable;

    // A ring of five marks: 0 and 1 leave.
    #[test]
    fn pentagon(rt: HostRuntime) {
        let mut words = [0u32; 5];
        let Ok(mut entry) = Entry::begin(&mut words, 5) else {
            panic!(rt; "an entry of five marks is begun");
        };
        for i in 0..5u32 {
            assert!(rt; entry.enter(i, (i + 1) % 5).is_ok());
        }
        let first = first_group(&BitTable::copy_of(&entry.seal()), 2);
        assert_eq!(rt; first.group.words(), [0b11100u32, 0, 0, 0]);
        assert_eq!(rt; first.top, 4);
    }
}
