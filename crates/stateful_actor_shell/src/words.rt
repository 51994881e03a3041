//! Letters among the words of a line, and lines that say yes or no.

use stateful_shell::{Page, word};

/// The letter that a word begins with.
pub(crate) fn letter(words: &[&str], at: usize) -> u8 {
    word(words, at).as_bytes().first().copied().unwrap_or(b'?')
}

/// Prints a line that says yes or no.
pub(crate) fn say_whether(is_so: bool, page: &mut Page) {
    page.say(if is_so { "yes" } else { "no" })
}
