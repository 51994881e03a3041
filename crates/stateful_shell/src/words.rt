//! The words of a line.

ghost use Rattle.std.specs.Prelude.{◌≡◌, drop, find, option_map, unwrap_or};
ghost use Rattle.std.specs.Str.{bytes_eq};
ghost use Rattle.stateful_shell.specs.Words.{IsWordAt, NumberAt, ReadsOr};

use std::str::FromStr;

/// The word of this number, from 0. An empty one where there are fewer.
///
/// A shell matches on the first word, and takes the others by their numbers: patterns of whole
/// lists of words take ten times as long to prove.
pub fn word<'a>(words: &[&'a str], at: usize) -> &'a str
    ensures { IsWordAt words.now at result }
{
    match words.get(at) {
        Some(word) => word,
        None => "",
    }
}

/// What a text is read as, such as a number. The other value where it can't be read.
pub fn parsed<T: FromStr + Drop>(text: &str, other: T) -> T
where
    T::Err: Drop,
    ensures { ReadsOr T.from_str_gives text.now other result }
{
    text.parse::<T>().unwrap_or(other)
}

/// The number that stands there. 0 where none does.
pub fn number(words: &[&str], at: usize) -> u64
    ensures { NumberAt ⟦<u64 as FromStr>⟧.from_str_gives words.now at result }
{
    parsed(word(words, at), 0)
}

/// The same, as an index.
pub fn index(words: &[&str], at: usize) -> usize
    ensures { NumberAt ⟦<usize as FromStr>⟧.from_str_gives words.now at result }
{
    parsed(word(words, at), 0)
}

/// The words from this number on.
pub fn rest<'a, 'b>(words: &'a [&'b str], from: usize) -> &'a [&'b str]
    ensures { result.now ≡ drop from words.now }
{
    words.split_at(from.min(words.len())).1
}

/// What stands beside a word in a table, at its first place. The other value where the table
/// doesn't have the word.
pub fn beside<T: Copy>(table: &[(&str, T)], word: &str, other: T) -> T
    ensures { result ≡ unwrap_or
        (option_map (λ entry. entry.1) (find (λ entry. bytes_eq entry.0.now word.now) table.now))
        other }
{
    table
        .iter()
        .find(|entry| entry.0 == word)
        .map_or(other, |entry| entry.1)
}
