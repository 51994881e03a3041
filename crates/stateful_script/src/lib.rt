//! Scripts of the program `play`, read line by line.
//!
//! A script is ASCII: every byte is below 128, and every line ends with LF. The fields of a line
//! are separated by one space. Numbers are decimal without leading zeros, up to
//! 18446744073709551615, and accounts are numbers up to 65535. A name is a letter a to z and up to
//! 15 letters a to z or digits. `genesis` is named from the start. A line is
//!
//! - empty, or a comment, which begins with `#`;
//! - `world plain`, `world pair` or `world triple`, at most one of them, once, and before the first
//!   event line;
//! - `block NAME on PARENT view V ITEMS`, which names a block. ITEMS are operations, at most 16 of
//!   them, each `mint ACCOUNT AMOUNT` or `move FROM TO AMOUNT`, and what else the block says
//!   (`height`, `epoch`, `slow`, `wrong`), in any order, or none. NAME isn't named yet, and is
//!   neither `none` nor `alone`. At most 1,024 blocks are named by lines;
//! - an event line, which begins with `verify`, `prepare`, `propose`, `finalize`, `subscribe`,
//!   `cancel`, `fetched`, `turn`, `flushed`, `stop` or `restart`. There are at most 65,536.
//!
//! A name is given by a line before it is used. A line that no rule reads is refused by its number,
//! from 1.
#![tactic(auto)]

mod block;
mod cursor;
mod error;
mod event;
mod field;
mod item;
mod law;
mod name;
mod read;
mod script;

pub use field::number;
pub use law::{first_is_named, last_is_ended, number_is_decimal, plans_are_kept, whole_is_read};
pub use name::Name;
pub use read::read_script;
pub use script::{PlannedBlock, PlannedEvent, Script, ScriptError, World};
