//! The shell.

use crate::barriers;
use crate::on_any::{self, AnyTable};
use crate::on_compact::{self, CompactTable};
use crate::on_keyless::{self, KeylessTable};
use crate::on_plain::{self, PlainTable};
use crate::staging::Staging;
use crate::tables::{self, Table};
use stateful_base::Target;
use stateful_db::{Barrier, Held};
use stateful_db_plain::{Plain, PlainMerkleized, PlainUnmerkleized};
use stateful_shell::{Page, Shell, word};
use std::alloc::Global;

/// Two plain databases, and three.
type Two = (Held<Plain>, Held<Plain>);

type Three = (Held<Plain>, Two);

/// A set of two.
type TwoTable = Table<
    Two,
    (PlainUnmerkleized, PlainUnmerkleized),
    (PlainMerkleized, PlainMerkleized),
    (Target, Target),
>;

/// A set of three.
type ThreeTable = Table<
    Three,
    (PlainUnmerkleized, (PlainUnmerkleized, PlainUnmerkleized)),
    (PlainMerkleized, (PlainMerkleized, PlainMerkleized)),
    (Target, (Target, Target)),
>;

/// The kinds of sets.
#[derive(Clone, Copy)]
enum Kind {
    None,
    Plain,
    Any,
    Keyless,
    Compact,
    Two,
    Three,
}

/// A set of each kind, with the keys that are staged over the map, which of them is played on, and
/// a barrier.
#[derive(Drop)]
pub(crate) struct Databases {
    kind: Kind,
    plain: PlainTable,
    two: TwoTable,
    three: ThreeTable,
    any: AnyTable,
    staging: Option<Staging>,
    keyless: KeylessTable,
    compact: CompactTable,
    barrier: Option<Barrier>,
}

/// The kind that a word says.
fn kind_of(word: &str) -> Kind {
    match word {
        "plain" => Kind::Plain,
        "any" => Kind::Any,
        "keyless" => Kind::Keyless,
        "compact" => Kind::Compact,
        "two" => Kind::Two,
        "three" => Kind::Three,
        _ => Kind::None,
    }
}

impl Databases {
    /// What a line says of the set.
    fn play_set(&mut self, words: &[&str], page: &mut Page) {
        match self.kind {
            Kind::None if word(words, 0) == "set" => page.say("no such kind"),
            Kind::None => page.say("no set"),
            Kind::Plain => on_plain::play(&mut self.plain, words, page),
            Kind::Any => on_any::play(&mut self.any, &mut self.staging, words, page),
            Kind::Keyless => on_keyless::play(&mut self.keyless, words, page),
            Kind::Compact => on_compact::play(&mut self.compact, words, page),
            Kind::Two => tables::play::<Two>(&mut self.two, words, page),
            Kind::Three => tables::play::<Three>(&mut self.three, words, page),
        }
    }
}

impl Shell for Databases {
    fn new(alloc: Global) -> Databases {
        Databases {
            kind: Kind::None,
            plain: Table::new(alloc, Held::Away),
            two: Table::new(alloc, (Held::Away, Held::Away)),
            three: Table::new(alloc, (Held::Away, (Held::Away, Held::Away))),
            any: Table::new(alloc, Held::Away),
            staging: None,
            keyless: Table::new(alloc, Held::Away),
            compact: Table::new(alloc, Held::Away),
            barrier: None,
        }
    }

    fn play(&mut self, words: &[&str], page: &mut Page) {
        match word(words, 0) {
            "barrier" => barriers::begin(&mut self.barrier, words, page),
            "handle" | "answer" | "poll" => barriers::play(&mut self.barrier, words, page),
            "set" => {
                self.kind = kind_of(word(words, 1));
                self.play_set(words, page);
            }
            _ => self.play_set(words, page),
        }
    }

    fn end(&mut self, _page: &mut Page) {}
}
