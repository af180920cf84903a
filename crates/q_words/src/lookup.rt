//! Looks texts up in tables of constants.
ghost use Rattle.std.specs.Prelude.{◌≡◌, map};
ghost use Rattle.q_words.specs.Words.{beside_in};

/// What stands beside this text in the table, where it stands first, or `None` where the table has no such text. Texts are
/// compared byte by byte.
pub fn look_up<T: Copy>(mut table: &[(&[u8], T)], text: &[u8]) -> Option<T>
    ensures { result ≡ beside_in (map (λ entry. (entry.0.now, entry.1)) table.entry.now) text.now }
{
    while let [entry, rest @ ..] = table {
        if text == entry.0 {
            return Some(entry.1);
        }
        table = rest;
    }
    None
}
