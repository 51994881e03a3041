//! Syncs of the four kinds of databases.

use crate::scenes::{self, Scene, SceneOf};
use crate::synced::Number;
use stateful_db_any::AnyDb;
use stateful_db_keyless::{CompactDb, KeylessDb};
use stateful_db_plain::Plain;
use stateful_shell::{Page, rest, word};

/// A scene of the kind that was served last.
#[derive(Drop)]
pub(crate) enum Scenes {
    None,
    Plain(SceneOf<Plain>),
    Any(SceneOf<AnyDb<u64, u64>>),
    Keyless(SceneOf<KeylessDb<u64>>),
    Compact(SceneOf<CompactDb<u64>>),
}

/// A scene of the kind that a word says.
fn scene_of(kind: &str, page: &Page) -> Scenes {
    match kind {
        "plain" => Scenes::Plain(Scene::new(page)),
        "any" => Scenes::Any(Scene::new(page)),
        "keyless" => Scenes::Keyless(Scene::new(page)),
        "compact" => Scenes::Compact(Scene::new(page)),
        _ => Scenes::None,
    }
}

// The databases are met here for numbers of any kind: their laws at numbers would be spelled out
// where they are met at numbers.

fn play_any<K: Number, V: Number>(
    scene: &mut SceneOf<AnyDb<K, V>>,
    words: &[&str],
    page: &mut Page,
) {
    scenes::play::<AnyDb<K, V>>(scene, words, page)
}

fn play_keyless<V: Number>(scene: &mut SceneOf<KeylessDb<V>>, words: &[&str], page: &mut Page) {
    scenes::play::<KeylessDb<V>>(scene, words, page)
}

fn play_compact<V: Number>(scene: &mut SceneOf<CompactDb<V>>, words: &[&str], page: &mut Page) {
    scenes::play::<CompactDb<V>>(scene, words, page)
}

/// Does what the words of a line say of a sync.
pub(crate) fn play(scenes: &mut Scenes, words: &[&str], page: &mut Page) {
    if word(words, 1) == "serve" {
        *scenes = scene_of(word(words, 2), page);
    }
    let behind = rest(words, 1);
    match scenes {
        Scenes::None => page.say("no server"),
        Scenes::Plain(scene) => scenes::play::<Plain>(scene, behind, page),
        Scenes::Any(scene) => play_any(scene, behind, page),
        Scenes::Keyless(scene) => play_keyless(scene, behind, page),
        Scenes::Compact(scene) => play_compact(scene, behind, page),
    }
}
