//! A database that is synced from a server.

use crate::bending::{Bend, Bent};
use crate::blocks::written;
use crate::synced::{Synced, Written};
use stateful_base::{Digest, Location, Target};
use stateful_db::{DbCall, ManagedDb, Targeted};
use stateful_passes::SyncEngineConfig;
use stateful_shell::{Page, number, parsed, rest, word};
use stateful_types::Request;
use std::mem;
use std::num::{NonZeroU64, NonZeroUsize};

/// Where the syncing database is: its medium alone, with its sync, or open.
#[derive(Drop)]
pub(crate) enum Place<D, M, P> {
    Nowhere,
    Closed(M),
    Syncing(P),
    Here(D),
}

/// A server, what its database has led to, block by block, and the database that syncs from it.
#[derive(Drop)]
pub(crate) struct Scene<D, M, P, T> {
    server: Option<Bent<D>>,
    targets: Vec<T>,
    place: Place<D, M, P>,
}

/// A database's own scene.
pub(crate) type SceneOf<D> = Scene<
    D,
    <D as ManagedDb>::Medium,
    <D as ManagedDb>::Pass,
    <D as ManagedDb>::SyncTarget,
>;

impl<D, M, P, T> Scene<D, M, P, T> {
    /// Without a server and a database.
    pub(crate) fn new(page: &Page) -> Scene<D, M, P, T> {
        Scene {
            server: None,
            targets: Vec::new(page.alloc()),
            place: Place::Nowhere,
        }
    }
}

/// The `sync` calls that fail, as words `fail:N` say.
fn failing(words: &[&str], page: &mut Page) -> Vec<(DbCall, u64)> {
    let mut calls = Vec::new(page.alloc());
    for word in words {
        if let Some(("fail", at)) = word.split_once(':') {
            if calls.push((DbCall::Sync, parsed(at, 0))).is_err() {
                page.lack();
            }
        }
    }
    calls
}

/// Prints a root with its range.
pub(crate) fn say_target(target: &Target, page: &mut Page) {
    page.hex(&target.root.0);
    page.field(" ", target.start.0);
    page.field("..", target.end.0);
    page.end()
}

/// Prints what an open database leads to, and what can be read of it.
pub(crate) fn say_db<D: Written>(db: &D, page: &mut Page) {
    say_target(&db.sync_target().target(), page);
    page.push("holds");
    db.push_state(page);
    page.end()
}

/// `serve KIND BLOCK ..`: a server over a database with these blocks, and an empty medium.
pub(crate) fn serve<D: Synced>(scene: &mut SceneOf<D>, words: &[&str], page: &mut Page) {
    let alloc = page.alloc();
    scene.targets.clear();
    scene.place = Place::Closed(D::empty(alloc, Vec::new(alloc)));
    let medium = D::empty(alloc, Vec::new(alloc));
    match written::<D>(medium, words, &mut scene.targets) {
        Ok(db) => scene.server = Some(Bent::new(db, Vec::new(alloc), Vec::new(alloc))),
        Err(error) => return page.line(&error),
    }
    for (block, target) in scene.targets.iter().enumerate() {
        page.field("", block as u64);
        page.push(": ");
        say_target(&target.target(), page);
    }
}

/// `medium BLOCK ..`, `medium fail:N ..`: the medium of a database with these blocks, which is
/// closed. Of an empty one these `sync` calls fail.
fn medium<D: Synced>(scene: &mut SceneOf<D>, words: &[&str], page: &mut Page) {
    let alloc = page.alloc();
    let failing = failing(words, page);
    if !failing.is_empty() {
        scene.place = Place::Closed(D::empty(alloc, failing));
        return;
    }
    let mut targets = Vec::new(alloc);
    match written::<D>(D::empty(alloc, failing), words, &mut targets) {
        Ok(db) => {
            say_db(&db, page);
            scene.place = Place::Closed(db.close());
        }
        Err(error) => page.line(&error),
    }
}

/// How a word bends an answer.
fn bend_of(word: &str) -> Option<Bend> {
    match word {
        "late" => Some(Bend::Late),
        "kind" => Some(Bend::Kind),
        "short" => Some(Bend::Short),
        "wrong" => Some(Bend::Wrong),
        "digest" => Some(Bend::Digest),
        _ => None,
    }
}

/// `bend N:HOW ..`: the server's calls of these numbers, from 0 on, are bent; those with `fault`
/// fail.
fn bend<D: Synced>(scene: &mut SceneOf<D>, words: &[&str], page: &mut Page) {
    let Some(server) = scene.server.take() else {
        return page.say("no server");
    };
    let mut failing = Vec::new(page.alloc());
    let mut bends = Vec::new(page.alloc());
    for word in words {
        let (at, how) = word.split_once(':').unwrap_or((*word, ""));
        let is_put = match bend_of(how) {
            Some(bend) => bends.push((parsed(at, 0), bend)).is_ok(),
            None => failing.push(parsed(at, 0)).is_ok(),
        };
        if !is_put {
            page.lack();
        }
    }
    scene.server = Some(Bent::new(server.into_db(), failing, bends));
}

/// What a word says is expected: what the server's database led to behind the block of a number, or
/// 32 bytes that are 0 with a range `START..END`.
fn expected<D: Synced>(targets: &[D::SyncTarget], word: &str) -> Option<D::SyncTarget> {
    match word.split_once("..") {
        Some((start, end)) => Some(D::expected(Target {
            root: Digest([0; 32]),
            start: Location(parsed(start, 0)),
            end: Location(parsed(end, 0)),
        })),
        None => targets.get(parsed(word, 0)).copied(),
    }
}

/// How many operations are asked for at once, at least one.
pub(crate) fn engine(batch: u64) -> SyncEngineConfig {
    SyncEngineConfig {
        fetch_batch_size: NonZeroU64::new(batch).unwrap_or(NonZeroU64::MIN),
        apply_batch_size: NonZeroU64::MIN,
        max_outstanding_requests: NonZeroUsize::MIN,
    }
}

/// `start TARGET BATCH`: a sync of the closed database, which asks for so many operations at once.
fn start<D: Synced>(scene: &mut SceneOf<D>, words: &[&str], page: &mut Page) {
    let Some(target) = expected::<D>(scene.targets.as_slice(), word(words, 0)) else {
        return page.say("no such target");
    };
    match mem::replace(&mut scene.place, Place::Nowhere) {
        Place::Closed(medium) => {
            match D::start(medium, &D::config(), target, engine(number(words, 1))) {
                Ok(pass) => scene.place = Place::Syncing(pass),
                Err((medium, why)) => {
                    scene.place = Place::Closed(medium);
                    page.line(&why)
                }
            }
        }
        other => {
            scene.place = other;
            page.say("refused")
        }
    }
}

/// `tip TARGET`: another target, which is adopted or ignored.
fn tip<D: Synced>(scene: &mut SceneOf<D>, words: &[&str], page: &mut Page) {
    let Some(target) = expected::<D>(scene.targets.as_slice(), word(words, 0)) else {
        return page.say("no such target");
    };
    let Place::Syncing(pass) = &mut scene.place else {
        return page.say("refused");
    };
    page.say(if D::tip(pass, target) {
        "adopted"
    } else {
        "ignored"
    })
}

/// Prints what was asked.
pub(crate) fn push_asked(asked: Option<Request>, page: &mut Page) {
    match asked {
        Some(Request::Boundary { size, start }) => {
            page.field("boundary ", start.0);
            page.field(" of ", size.0)
        }
        Some(
            Request::Operations {
                size,
                start,
                max_ops,
            },
        ) => {
            page.field("operations ", start.0);
            page.field(" of ", size.0);
            page.field(", at most ", max_ops.get())
        }
        None => page.push("nothing"),
    }
}

/// `ask`: one request. Whether the sync goes on.
fn ask<D: Synced>(scene: &mut SceneOf<D>, page: &mut Page) -> bool {
    let (Place::Syncing(pass), Some(server)) = (&mut scene.place, &mut scene.server) else {
        page.say("refused");
        return false;
    };
    let is_reached = D::is_reached(pass);
    if is_reached {
        page.say("refused");
        return false;
    }
    let came = D::progress(pass, server);
    push_asked(server.take_asked(), page);
    page.push(": ");
    match came {
        Ok(None) => page.say("lacks"),
        Ok(Some(target)) => {
            page.field("reached ", target.target().end.0);
            page.end();
            return false;
        }
        Err(why) => page.line(&why),
    }
    true
}

/// `ask COUNT`: so many requests, or fewer until the target is reached.
fn ask_each<D: Synced>(scene: &mut SceneOf<D>, words: &[&str], page: &mut Page) {
    let count = number(words, 0).max(1);
    for _ in 0..count {
        if !ask::<D>(scene, page) {
            return;
        }
    }
}

/// `finish`: the database of what was fetched, once all is there.
fn finish<D: Synced>(scene: &mut SceneOf<D>, page: &mut Page) {
    let pass = match mem::replace(&mut scene.place, Place::Nowhere) {
        Place::Syncing(pass) => pass,
        other => {
            scene.place = other;
            return page.say("refused");
        }
    };
    let is_reached = D::is_reached(&pass);
    if !is_reached {
        scene.place = Place::Syncing(pass);
        return page.say("refused");
    }
    match D::finish(pass) {
        Ok(db) => {
            say_db(&db, page);
            scene.place = Place::Here(db);
        }
        Err((medium, why)) => {
            scene.place = Place::Closed(medium);
            page.line(&why)
        }
    }
}

/// `abandon`: the medium as it was. `crash`: what a crash leaves that keeps nothing, of the open
/// database.
fn close<D: Synced>(scene: &mut SceneOf<D>, page: &mut Page) {
    match mem::replace(&mut scene.place, Place::Nowhere) {
        Place::Syncing(pass) => scene.place = Place::Closed(D::abandon(pass)),
        Place::Here(db) => scene.place = Place::Closed(D::crash(db.close(), 0)),
        other => {
            scene.place = other;
            page.say("refused")
        }
    }
}

/// `open`, `open TARGET`: opens the closed database, at its latest state or at this target.
fn open<D: Synced>(scene: &mut SceneOf<D>, words: &[&str], page: &mut Page) {
    let target = expected::<D>(scene.targets.as_slice(), word(words, 0));
    let target = if words.is_empty() { None } else { target };
    match mem::replace(&mut scene.place, Place::Nowhere) {
        Place::Closed(medium) => match D::init(medium, &D::config(), target) {
            Ok(db) => {
                say_db(&db, page);
                scene.place = Place::Here(db);
            }
            Err((medium, why)) => {
                scene.place = Place::Closed(medium);
                page.line(&why)
            }
        },
        other => {
            scene.place = other;
            page.say("refused")
        }
    }
}

/// `relay`: the open database serves from now on, and an empty medium is closed.
fn relay<D: Synced>(scene: &mut SceneOf<D>, page: &mut Page) {
    let alloc = page.alloc();
    match mem::replace(&mut scene.place, Place::Nowhere) {
        Place::Here(db) => {
            scene.server = Some(Bent::new(db, Vec::new(alloc), Vec::new(alloc)));
            scene.place = Place::Closed(D::empty(alloc, Vec::new(alloc)));
        }
        other => {
            scene.place = other;
            page.say("refused")
        }
    }
}

/// `answer SIZE START`, `answer SIZE START COUNT`: what the open database answers, in hex.
fn answer<D: Synced>(scene: &SceneOf<D>, words: &[&str], page: &mut Page) {
    let Place::Here(db) = &scene.place else {
        return page.say("refused");
    };
    let size = Location(number(words, 0));
    let start = Location(number(words, 1));
    let request = match NonZeroU64::new(number(words, 2)) {
        Some(max_ops) => Request::Operations {
            size,
            start,
            max_ops,
        },
        None => Request::Boundary { size, start },
    };
    match db.answer(&request) {
        Ok(response) => {
            let mut bytes = Vec::new(page.alloc());
            page.note(response.write(&mut bytes));
            page.hex(bytes.as_slice());
            page.end()
        }
        Err(fault) => page.line(&fault),
    }
}

/// Does what the words behind `sync` say of a scene.
pub(crate) fn play<D: Synced>(scene: &mut SceneOf<D>, words: &[&str], page: &mut Page) {
    let behind = rest(words, 1);
    match word(words, 0) {
        "serve" => serve::<D>(scene, rest(words, 2), page),
        "medium" => medium::<D>(scene, behind, page),
        "bend" => bend::<D>(scene, behind, page),
        "start" => start::<D>(scene, behind, page),
        "tip" => tip::<D>(scene, behind, page),
        "ask" => ask_each::<D>(scene, behind, page),
        "finish" => finish::<D>(scene, page),
        "abandon" | "crash" => close::<D>(scene, page),
        "open" => open::<D>(scene, behind, page),
        "relay" => relay::<D>(scene, page),
        "answer" => answer::<D>(scene, behind, page),
        _ => page.say("no such command"),
    }
}
