//! Delivers bytes to a resolver, over and over, so that it can be timed.
//!
//!     stateful_p2p_bench SUBSCRIBERS OTHERS OPERATIONS DELIVERIES
//!
//! So many tickets subscribe to one key, and so many others to a key each. Then so many deliveries
//! come for the one key. Each holds so many operations and one byte more, so that it is read to its
//! end and is bad. The number of bad ones is printed.
#![tactic(auto)]

mod source;

use crate::source::Silent;
use anyhow::Error;
use bytes::Bytes;
use stateful_p2p::{Actor, ActorEvent, ActorOut, Config, Mailbox, Request};
use stateful_types::Location;
use std::alloc::Global;
use std::env;
use std::num::NonZeroU64;

/// How many tickets subscribe to one key and to others, how many operations a delivery holds, and
/// how many deliveries come.
#[derive(Clone, Copy)]
struct Load {
    subscribers: u64,
    others: u64,
    operations: u32,
    deliveries: u64,
}

/// The words behind the program's name, as numbers.
fn read_load(rt: &HostRuntime) -> Result<Load, Error> {
    let mut numbers = Vec::new(rt.alloc());
    for word in env::args(rt)?.skip(1) {
        let number: u64 = word.as_str().parse()?;
        numbers.push(number)?;
    }
    match numbers.as_slice() {
        [subscribers, others, operations, deliveries] => Ok(Load {
            subscribers: *subscribers,
            others: *others,
            operations: u32::try_from(*operations)?,
            deliveries: *deliveries,
        }),
        _ => Err(Error::msg("four numbers are wanted")),
    }
}

/// Asks for as many operations from here on as there are.
fn key(start: u64) -> Request {
    Request::Operations {
        size: Location(u64::MAX),
        start: Location(start),
        max_ops: NonZeroU64::MAX,
    }
}

/// So many operations, and one byte more.
fn payload(alloc: Global, operations: u32) -> Result<Bytes, Error> {
    let mut bytes = Vec::new(alloc);
    bytes.push(0)?;
    bytes.extend_from_slice(&operations.to_be_bytes())?;
    for number in 0..operations {
        bytes.extend_from_slice(&u64::from(number).to_be_bytes())?;
    }
    bytes.push(0)?;
    Ok(Bytes::from_vec(bytes)?)
}

/// One more ticket subscribes to a key.
fn subscribe(
    actor: &mut Actor<Silent>,
    mailbox: &mut Mailbox<Silent>,
    key: Request,
) -> Result<(), Error> {
    mailbox.serve(key)?;
    actor.step(mailbox, ActorEvent::Message)?;
    Ok(())
}

/// How many of the outputs say that a delivery is bad.
fn bad(outs: &[ActorOut]) -> usize {
    outs.iter()
        .filter(|out| matches!(out, ActorOut::Feedback { valid: false, .. }))
        .count()
}

/// Brings the load to a new resolver. Gives the number of bad deliveries.
fn bring(alloc: Global, load: Load) -> Result<usize, Error> {
    let config = Config {
        max_serve_ops: NonZeroU64::MIN,
        mailbox_size: 1,
    };
    let (mut actor, mut mailbox) = Actor::new(alloc, config)?;
    for _ in 0..load.subscribers {
        subscribe(&mut actor, &mut mailbox, key(0))?;
    }
    for start in 0..load.others {
        subscribe(&mut actor, &mut mailbox, key(start.saturating_add(1)))?;
    }
    let value = payload(alloc, load.operations)?;
    let mut count: usize = 0;
    for delivery in 0..load.deliveries {
        let outs = actor.step(
            &mut mailbox,
            ActorEvent::Deliver {
                delivery,
                key: key(0),
                value: value.clone()?,
            },
        )?;
        count = count.saturating_add(bad(outs.as_slice()));
    }
    Ok(count)
}

fn main(rt: HostRuntime) -> Result<(), Error> {
    let load = read_load(&rt)?;
    let count = bring(rt.alloc(), load)?;
    println!(rt; "{count}")?;
    Ok(())
}
