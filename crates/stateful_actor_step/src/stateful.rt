//! The machine.

ghost use Rattle.std.specs.Prelude.{◌≡◌, [], ℕ, Option, IfOk};
ghost use Rattle.stateful_base.specs.Names.{Named};
ghost use Rattle.stateful_loop_model.specs.Moments.{moment};
ghost use Rattle.stateful_actor_laws.specs.Ahead.{IsAheadLawfully};
ghost use Rattle.stateful_actor_step.specs.Notes.{HasObserved};
ghost use Rattle.stateful_actor_laws.specs.Machine.{IsNew, IsSafe};
ghost use Rattle.stateful_actor_laws.specs.Media.{IsAsAtStart, MediaStand};

use crate::inside::Core;
use stateful_actor_register::Register;
use stateful_base::{Anchor, Digest, Epoch, Height, OutOfMemory, Round, View};
use stateful_db::{Application, DatabaseSet};
use stateful_exec::{Handler, Processor, Worked};
use stateful_loop::Processing;
use std::alloc::Global;
use std::marker::Model;
use thiserror::Error;

/// What a machine is made of: the application, how its databases are opened, and what its builds
/// are given.
#[derive(Drop)]
pub struct Config<A: Application + Drop> {
    pub application: A,
    pub db_config: <A::Databases as DatabaseSet>::Config,
    pub provider: A::Provider,
}

/// Why a machine was not made.
#[derive(Clone, Copy, Debug, PartialEq, Eq, Error)]
pub enum NewError {
    #[error("OutOfMemory")]
    OutOfMemory,
}

impl From<OutOfMemory> for NewError {
    fn from(_refused: OutOfMemory) -> NewError {
        NewError::OutOfMemory
    }
}

/// The machine: one event is one call of `step`.
#[derive(Drop)]
pub struct Stateful<A: Application + Drop> {
    pub alloc: Global,
    pub core: Core<A>,
    pub failed: bool,
    pub faults: u64,
}

impl<A: Application + Drop> Model for Stateful<A> {
    ghost use Rattle.std.specs.Coded.{codes};
    ghost use Rattle.std_collections.specs.Layout.BTreeMap.{btree_map_code};
    ghost use Rattle.stateful_actor_step.specs.Machine.{Machine};
    ghost use Rattle.stateful_exec_model.specs.State.{Owner};
    ghost use Rattle.stateful_loop_model.specs.Moments.{Executing, executing};
    ghost use Rattle.stateful_loop_model.specs.declared.tables.Processing.{Processing};

    ghost Value = { Machine A (Executing A.Block A.Context A.Input A.Run A.Build A.Hook A.Databases.Merkleized)
        (Processing A.Block A.Context A.Input A.Captured) A.Provider A.Databases.Config };

    ghost coded = { Prim.hlevel (codes, btree_map_code) };

    ghost view = { λ s. record {
      application =
          s.core.handler.application;
      execution =
          executing s.core.handler;
      loop =
          s.core.processing;
      register =
          s.core.register;
      provider =
          s.core.provider;
      config = s.core.db_config;
      failed = s.failed;
      faults = s.faults;
    } };
}

/// The anchor of a machine that has opened nothing yet. Nothing is read off it while the machine is
/// down.
const NOWHERE: Anchor = Anchor {
    height: Height(0),
    round: Round {
        epoch: Epoch(0),
        view: View(0),
    },
    digest: Digest([0; 32]),
};

impl<A: Application + Drop> Stateful<A> {
    /// A machine that is down, of this configuration. `step` may be called beside any databases of
    /// which none is away. Media that are as at the start stand for the empty past beside it.
    pub fn new(alloc: Global, config: Config<A>) -> Result<Stateful<A>, NewError>
        ensures new { IfOk result (λ s. (m : A.Databases.kind.Members) (n : A.Databases.Ids)
            → IsNew ⟦<A as Worked>⟧.workings s.failed s.register
            (moment ⟦<A as Worked>⟧.workings s.execution s.loop m n [])) }
        ensures safe { IfOk result (λ s. (m : A.Databases.kind.Members) (n : A.Databases.Ids)
            → A.Databases.kind.NoneAway m
            → IsSafe ⟦<A as Worked>⟧.workings s.failed
            (moment ⟦<A as Worked>⟧.workings s.execution s.loop m n [])) }
        ensures media { IfOk result (λ s. let w = ⟦<A as Worked>⟧.workings in
            (stored : ℕ → Option (Named A.Block))
            (m : A.Databases.kind.Members)
            (n : A.Databases.Ids)
            → IsAsAtStart w stored m
            → MediaStand w stored [] s.failed (moment w s.execution s.loop m n [])) }
        ensures ahead { IfOk result (λ s. let w = ⟦<A as Worked>⟧.workings in
            (stored : ℕ → Option (Named A.Block))
            (base : A.Databases.States)
            (m : A.Databases.kind.Members)
            (n : A.Databases.Ids)
            → IsAheadLawfully w stored base [] (moment w s.execution s.loop m n [])) }
        ensures observed { IfOk result (λ s. HasObserved s.failed s.loop.front) }
        ensures application { IfOk result (λ s. s.application ≡ config.application) }
        ensures config { IfOk result (λ s. (s.provider ≡ config.provider)
            × (s.config ≡ config.db_config)) }
    {
        let Config {
            application,
            db_config,
            provider,
        } = config;
        let processor = Processor::new(alloc, application, NOWHERE)?;
        Ok(Stateful {
            alloc,
            core: Core {
                handler: Handler::new(processor)?,
                processing: Processing::new(alloc, 0),
                register: Register::new(alloc),
                provider,
                db_config,
            },
            failed: false,
            faults: 0,
        })
    }

    /// In how many events the application, a run, a build or a hook has failed. It stays at the
    /// last number.
    pub fn faults(&self) -> u64
        ensures { result ≡ self.now.faults }
    {
        self.faults
    }

    /// The application as it is.
    pub fn application(&self) -> &A
        ensures { result.now ≡ self.now.application }
    {
        self.core.handler.application()
    }
}
