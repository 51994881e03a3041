//! The schemes of epochs, and who takes part in the lowest one.

ghost use Rattle.std.specs.Prelude.{◌≡◌, ◌^◌, ◌<◌, Option, Some, IfSome, IfOk, All, length};
ghost use Rattle.std.specs.Option.{option_copied};
ghost use Rattle.std.specs.BTreeSet.{IsFromIterResult};
ghost use Rattle.stateful_probe.specs.Setup.{setup, scheme_in, membership};
ghost use Rattle.stateful_probe.specs.Judgement.{IsCountedScheme};

use crate::probe::Config;
use stateful_types::{Epoch, OutOfMemory, Scheme};
use std::alloc::Global;
use std::collections::BTreeSet;
use std::marker::Model;

/// The schemes of the epochs that are known, and the lowest epoch that counts. Each scheme has
/// fewer than 2^32 participants. Those of the lowest epoch can be looked up.
#[derive(Drop)]
pub(crate) struct Schemes<S: Scheme> {
    config: Config<S>,
    members: Option<BTreeSet<S::Key>>,
}

impl<S: Scheme> Model for Schemes<S> {
    ghost use Rattle.std.specs.Prelude.{◌<◌, ◌^◌, All, length};
    ghost use Rattle.stateful_probe.specs.declared.probe.Config.{Config};
    ghost use Rattle.stateful_probe.specs.Setup.{setup};
    ghost use Rattle.stateful_probe.specs.Schemes.{AreMembers};

    ghost Value = { Config S };

    ghost view = { λ a. a.config };

    ghost invariant = { λ a. All (λ known. length (S.keys known.1) < 2 ^ 32) a.config.schemes
        × AreMembers (setup S.Key.cmp S.Key.eq S.certificates S.keys S.certifies a.config)
        a.members };
}

impl<S: Scheme> Schemes<S> {
    pub(crate) fn new(alloc: Global, config: Config<S>) -> Result<Schemes<S>, OutOfMemory>
    where
        S: Drop,
        requires { All (λ known. length (S.keys known.1) < 2 ^ 32) config.schemes }
        ensures { IfOk result (λ schemes. schemes ≡ config) }
    {
        let members = match scheme_in(config.schemes.as_slice(), config.minimum_epoch) {
            Some(scheme) => Some(set_of(alloc, scheme.participants())?),
            None => None,
        };
        Ok(Schemes { config, members })
    }

    /// The scheme of an epoch: the first that is known.
    pub(crate) fn scheme(&self, epoch: Epoch) -> Option<&S>
        ensures found { option_copied result ≡ scheme_in self.now.schemes epoch }
        ensures small { IfSome result (λ scheme. length (S.keys scheme.now) < 2 ^ 32) }
    {
        scheme_in(self.config.schemes.as_slice(), epoch)
    }

    /// The scheme of the lowest epoch, whose participants are asked.
    pub(crate) fn lowest(&self) -> Option<&S>
        ensures found { option_copied result ≡ scheme_in self.now.schemes self.now.minimum_epoch }
        ensures small { IfSome result (λ scheme. length (S.keys scheme.now) < 2 ^ 32) }
    {
        self.scheme(self.config.minimum_epoch)
    }

    /// The scheme of an epoch that counts.
    pub(crate) fn counted(&self, epoch: Epoch) -> Option<&S>
        ensures counts { IsCountedScheme
            (setup S.Key.cmp S.Key.eq S.certificates S.keys S.certifies self.now)
            epoch (option_copied result) }
        ensures small { IfSome result (λ scheme. length (S.keys scheme.now) < 2 ^ 32) }
    {
        if epoch.0 < self.config.minimum_epoch.0 {
            return None;
        }
        self.scheme(epoch)
    }

    /// Whether the peer takes part in the lowest epoch, where it is known who does.
    pub(crate) fn membership(&self, peer: &S::Key) -> Option<bool>
        ensures { result ≡ membership
            (setup S.Key.cmp S.Key.eq S.certificates S.keys S.certifies self.now) peer.now }
    {
        match &self.members {
            Some(members) => Some(members.contains(peer)),
            None => None,
        }
    }
}

/// The scheme of an epoch: the first in the list.
fn scheme_in<'a, S: Scheme>(schemes: &'a [(Epoch, S)], epoch: Epoch) -> Option<&'a S>
    ensures found { option_copied result ≡ scheme_in schemes.now epoch }
    ensures small { All (λ known. length (S.keys known.1) < 2 ^ 32) schemes.now
        → IfSome result (λ scheme. length (S.keys scheme.now) < 2 ^ 32) }
{
    for (known, scheme) in schemes {
        if known.0 == epoch.0 {
            return Some(scheme);
        }
    }
    None
}

/// The set of these keys.
fn set_of<K: Ord + Copy>(alloc: Global, keys: &[K]) -> Result<BTreeSet<K>, OutOfMemory>
    ensures { IfOk result (IsFromIterResult K.cmp keys.now) }
{
    Ok(keys.iter().copied().collect(alloc)?)
}
