//! Tables of words.

/// What the table has at this word.
pub fn entry_at<T: Copy>(table: &[(&str, T)], word: &str) -> Option<T> {
    for (name, one) in table {
        if *name == word {
            return Some(*one);
        }
    }
    None
}
