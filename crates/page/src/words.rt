// Words from bytes, the lowest byte first.
ghost use Rattle.std.specs.Prelude.{◌≡◌, ◌*◌, ◌/◌, ◌%◌, ◌≤◌, length, take};
ghost use Rattle.std.specs.List.{flat_map};
ghost use Rattle.page.specs.Bytes.{word_bytes};

// Stores the words that bytes are. By index: over places lent one by one, the loop's invariant does not see what was
// written.
pub(crate) fn store_words(bytes: &[u8], words: &mut [u32])
    requires { (length bytes.now ≤ 4 * length words.old) × (length bytes.now % 4 ≡ 0) }
    ensures { flat_map word_bytes (take (length bytes.now / 4) words.new) ≡ bytes.now }
{
    let (fours, _) = bytes.as_chunks::<4>();
    for (i, four) in fours.iter().enumerate() {
        words[i] = u32::from_le_bytes(*four);
    }
}
