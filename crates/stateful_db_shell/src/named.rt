//! Things by name.

use stateful_shell::Page;
use std::alloc::Global;
use std::collections::BTreeMap;

/// Things by name.
#[derive(Drop)]
pub(crate) struct Named<T> {
    things: BTreeMap<String, T>,
}

impl<T> Named<T> {
    /// No things.
    pub(crate) fn new(alloc: Global) -> Named<T> {
        Named {
            things: BTreeMap::new(alloc),
        }
    }
}

impl<T: Drop> Named<T> {
    /// Keeps a thing under a name, in place of the one that was there.
    pub(crate) fn keep(&mut self, name: &str, thing: T, page: &mut Page) {
        match String::from_str(page.alloc(), name) {
            Ok(name) => {
                if self.things.insert(name, thing).is_err() {
                    page.lack();
                }
            }
            Err(_) => page.lack(),
        }
    }

    /// The same, and prints `ok`.
    pub(crate) fn put(&mut self, name: &str, thing: T, page: &mut Page) {
        self.keep(name, thing, page);
        page.say("ok");
    }

    /// The thing of this name.
    pub(crate) fn get(&self, name: &str) -> Option<&T> {
        self.things.get(name)
    }

    /// The same, to change it.
    pub(crate) fn get_mut(&mut self, name: &str) -> Option<&mut T> {
        self.things.get_mut(name)
    }

    /// Takes the thing of this name.
    pub(crate) fn take(&mut self, name: &str) -> Option<T> {
        self.things.remove(name)
    }
}
