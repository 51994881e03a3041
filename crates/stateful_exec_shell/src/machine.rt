//! Execution, with what it works on.

use crate::answer::{Answer, Made, done, front, joined, next, ready, started, told, yes_or_no};
use crate::blocks::Blocks;
use crate::played::Played;
use crate::requests::{Requested, to_build, to_verify};
use crate::telling::tell_line;
use crate::words::Command;
use stateful_db::{AppFault, DatabaseSet, ProposalKind};
use stateful_exec::{Acquired, FinalizationBoundary, Processor, Verifier};
use stateful_history::Mark;
use stateful_shell::{Page, number, word};
use stateful_types::{Anchor, Digested, MemoryStore, Moved, OutOfMemory, Share};
use std::alloc::Global;

/// Execution, with its databases, its store and the marks of the call that goes on.
#[derive(Drop)]
pub(crate) struct Machine<A: Played> {
    alloc: Global,
    databases: A::Databases,
    store: MemoryStore<A::Block>,
    handler: Verifier<A>,
    marks: Vec<Mark<A::Block>>,
}

/// What the last turn of a run answers, by the word for it.
fn turned<T>(how: &str) -> Result<Moved<Option<T>>, AppFault> {
    match how {
        "pending" => Ok(Moved::Pending),
        "fails" => Err(AppFault::Failed),
        _ => Ok(Moved::Done(None)),
    }
}

impl<A: Played> Machine<A> {
    /// Nothing goes on over a block.
    pub(crate) fn open(
        alloc: Global,
        block: &Digested<A::Block>,
    ) -> Result<Machine<A>, OutOfMemory> {
        let processor = Processor::new(alloc, A::fresh(), Anchor::from_block(block))?;
        let handler = Verifier::<A>::new(processor)?;
        Ok(Machine {
            alloc,
            databases: A::opened(alloc),
            store: MemoryStore::new(alloc),
            handler,
            marks: Vec::new(alloc),
        })
    }

    /// A question.
    fn ask(&self, command: Command) -> Answer {
        match command {
            Command::Building => match self.handler.build() {
                Some(build) => Answer::Build(build.job, build.ticket, build.parent.digest()),
                None => Answer::Word("no build"),
            },
            Command::Front => front(self.handler.front()),
            Command::Anchor => Answer::Block("anchor", self.handler.branch_anchor().digest),
            Command::Awaited => Answer::Number("awaits", self.handler.awaited() as u64),
            Command::Idle => yes_or_no(self.handler.flights_idle()),
            Command::Numbers => {
                let (job, fetch) = self.handler.numbers();
                Answer::Numbers("numbers", job, fetch)
            }
            _ => Answer::Word("no such command"),
        }
    }

    fn pause(&mut self, boundary: Option<FinalizationBoundary>) -> Made {
        let awaited = self.handler.pause(boundary, &mut self.marks)?;
        Ok(Answer::Number("awaits", awaited as u64))
    }

    /// A command without anything behind it.
    fn play_alone(&mut self, command: Command) -> Made {
        match command {
            Command::Pause => self.pause(None),
            Command::Resume => done(
                self.handler
                    .resume(&mut self.databases, &self.store, &mut self.marks),
            ),
            Command::Ready => Ok(ready(self.handler.ready())),
            Command::DropFront => {
                self.handler.drop_root();
                Ok(Answer::Nothing)
            }
            Command::Close => {
                self.databases = A::closed(self.alloc);
                Ok(Answer::Nothing)
            }
            _ => Ok(self.ask(command)),
        }
    }

    /// The anchor moves to a block, whose batch is applied.
    fn advance(&mut self, block: &Digested<A::Block>) -> Made {
        let (batch, _captured) = self.handler.advance(&self.databases, block)?;
        self.databases.apply(batch)?;
        Ok(Answer::Nothing)
    }

    /// A command on a block.
    fn play_block(&mut self, command: Command, block: &Digested<A::Block>) -> Made {
        match command {
            Command::Pause => {
                let boundary = self.handler.boundary(block)?;
                self.pause(Some(boundary))
            }
            Command::Past => told(self.handler.redelivered(block)),
            Command::Begin => done(self.handler.begin(block)),
            Command::Run => done(
                self.handler
                    .run_finalized(&mut self.databases, block, &mut self.marks),
            ),
            Command::Advance => self.advance(block),
            Command::Observe => told(
                self.handler
                    .hook(&self.databases, block, A::captured(), &mut self.marks),
            ),
            Command::Store => {
                self.store.insert(block.share()?)?;
                Ok(Answer::Nothing)
            }
            Command::Cached => Ok(yes_or_no(self.handler.cached(&block.digest()))),
            _ => Ok(Answer::Word("no such command")),
        }
    }

    /// A request is to go along its path.
    fn start(&mut self, ticket: u64) -> Made {
        match self.handler.prepare(ticket, &self.store)? {
            Some(Acquired::Ready(path)) => Ok(yes_or_no(self.handler.start(ticket, path)?)),
            Some(Acquired::Ask(digest)) => Ok(Answer::Block("needs", digest)),
            Some(Acquired::Valid) => Ok(Answer::Word("needs nothing")),
            Some(Acquired::Invalid) => Ok(Answer::Word("is invalid")),
            Some(Acquired::Waits) => Ok(Answer::Word("waits")),
            None => Ok(Answer::Word("no request")),
        }
    }

    fn fetched(&mut self, fetch: u64, answer: Option<Digested<A::Block>>) -> Made {
        done(
            self.handler.fetched(
                &mut self.databases,
                &self.store,
                fetch,
                answer,
                &mut self.marks,
            ),
        )
    }

    /// A command on a ticket, a job or a fetch.
    fn play_number(&mut self, command: Command, number: u64) -> Made {
        match command {
            Command::Fetched => self.fetched(number, None),
            Command::Cancel => {
                self.handler.cancel(number, &mut self.marks)?;
                Ok(Answer::Nothing)
            }
            Command::Turn => done(
                self.handler
                    .complete(&mut self.databases, number, &mut self.marks),
            ),
            Command::Start => self.start(number),
            Command::Next => Ok(next(self.handler.next(number))),
            Command::Process => joined(
                self.handler
                    .process(number, &mut self.databases, &mut self.marks),
            ),
            Command::Build => started(
                self.handler
                    .propose(number, &mut self.databases, A::provider()),
            ),
            Command::TurnBuild => done(
                self.handler
                    .turn_build(&self.databases, number, &mut self.marks),
            ),
            Command::TurnHook => done(
                self.handler
                    .turn_hook(&self.databases, number, &mut self.marks),
            ),
            _ => Ok(Answer::Word("no such command")),
        }
    }

    fn schedule(&mut self, requested: Requested<A>) -> Made {
        match requested? {
            Some(request) => done(
                self.handler
                    .schedule(&mut self.databases, &self.store, request, &mut self.marks),
            ),
            None => Ok(Answer::Word("no such block")),
        }
    }

    /// Numbers never fall.
    fn reopen(&mut self, block: &Digested<A::Block>, job: u64, fetch: u64) -> Answer {
        let (next_job, next_fetch) = self.handler.numbers();
        if job < next_job || fetch < next_fetch {
            return Answer::Word("refused");
        }
        self.handler.reopen(Anchor::from_block(block), job, fetch);
        Answer::Nothing
    }

    /// A command on several things.
    fn play_several(
        &mut self,
        command: Command,
        blocks: &Blocks<A::Block>,
        words: &[&str],
    ) -> Made {
        match command {
            Command::Verify => self.schedule(to_verify::<A>(self.alloc, blocks, words)),
            Command::Propose => {
                self.schedule(to_build::<A>(self.alloc, blocks, ProposalKind::Propose, words))
            }
            Command::Prepare => {
                self.schedule(to_build::<A>(self.alloc, blocks, ProposalKind::Prepare, words))
            }
            Command::Settle => done(
                self.handler.settle(
                    &mut self.databases,
                    number(words, 1),
                    turned(word(words, 2)),
                    &mut self.marks,
                ),
            ),
            Command::Fetched => match blocks.share(word(words, 2))? {
                Some(block) => self.fetched(number(words, 1), Some(block)),
                None => Ok(Answer::Word("no such block")),
            },
            Command::Reopen => match blocks.find(word(words, 1)) {
                Some(block) => Ok(self.reopen(block, number(words, 2), number(words, 3))),
                None => Ok(Answer::Word("no such block")),
            },
            _ => Ok(Answer::Word("no such command")),
        }
    }

    /// Does what the words of a line say.
    pub(crate) fn play(&mut self, blocks: &Blocks<A::Block>, words: &[&str], page: &mut Page) {
        let command = Command::of(word(words, 0));
        let made = match words.len() {
            1 => self.play_alone(command),
            2 => match blocks.find(word(words, 1)) {
                Some(block) => self.play_block(command, block),
                None => self.play_number(command, number(words, 1)),
            },
            _ => self.play_several(command, blocks, words),
        };
        tell_line(&self.marks, made, blocks, page);
        self.marks.clear()
    }
}
