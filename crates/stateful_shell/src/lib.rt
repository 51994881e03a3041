//! Commands with what they print beside them, as data. A file has cases: lines of commands, a line
//! `----`, what these print, and a blank line. Lines that begin with `#` are comments, which say
//! what a case shows. A case without a line `----` is to print nothing.
//!
//!     # a block of height 1 is held until a barrier over it is done
//!     apply 1 7
//!     barrier
//!     end good
//!     ----
//!     applied
//!     begun
//!     1: 1:7
//!
//! A program over a shell is given names of such files. It prints each case that prints another
//! thing than its file says, and how many are the same. With the word `print` before a name, it
//! prints that file anew, with what its commands print now.
#![tactic(auto)]

mod case;
mod page;
mod playing;
mod words;

pub use case::{Shell, Tally};
pub use page::Page;
pub use playing::play_files;
pub use words::{beside, index, number, parsed, rest, word};
