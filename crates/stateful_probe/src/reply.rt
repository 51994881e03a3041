//! What a peer's bytes are, and what they are worth.

ghost use Rattle.std.specs.Prelude.{◌≡◌, ◌<◌, ◌^◌, ◌∷◌, ◌↔◌, ℕ, List, IfOk, IfErr, IsErrOf, IsTrue};
ghost use Rattle.std.specs.Prelude.{length};
ghost use Rattle.stateful_probe.specs.Setup.{setup, Counts};
ghost use Rattle.stateful_probe.specs.Reply.{IsHeader, HasHeader};
ghost use Rattle.stateful_probe.specs.Judgement.{IsHopeless, IsReadAs, IsDecodedAs, IsJudgedAs};
ghost use Rattle.stateful_base.specs.declared.round.Round.{Round};
ghost use Rattle.stateful_base.specs.declared.number.Epoch.{Epoch};

use crate::schemes::Schemes;
use crate::wire::Tag;
use bytes::Bytes;
use stateful_types::{
    CodecError, Digest, Epoch, Finalization, OutOfMemory, Round, Scheme, View, end_of, read_u64,
};
use std::alloc::Global;

/// What a message holds, in discovery.
#[derive(Drop)]
pub(crate) enum Decoded<C> {
    /// A request, or a response of an epoch that doesn't count.
    Ignored,
    /// Nothing that could make a good reply of its peer.
    AtFault,
    /// A finalization of an epoch that counts.
    Whole(Finalization<C>),
}

/// What a message is worth, in discovery.
#[derive(Drop)]
pub(crate) enum Judgement<C> {
    /// Nothing is made of it.
    Ignored,
    /// Its peer is at fault.
    AtFault,
    /// A good reply.
    Good(Finalization<C>),
}

/// Whether no certificate of so many bytes makes a good reply of this peer, in an epoch of this
/// scheme.
fn is_hopeless<S: Scheme>(schemes: &Schemes<S>, scheme: &S, peer: &S::Key, size: usize) -> bool
    requires { length (S.keys scheme.now) < 2 ^ 32 }
    ensures { (epoch : Epoch)
        → Counts (setup S.Key.cmp S.Key.eq S.certificates S.keys S.certifies schemes.now) epoch
        scheme.now
        → IsTrue result
        ↔ IsHopeless (setup S.Key.cmp S.Key.eq S.certificates S.keys S.certifies schemes.now)
        S.max_size peer.now epoch size }
{
    match schemes.membership(peer) {
        Some(true) => S::max_certificate_size(scheme.participants().len() as u32) < size,
        Some(false) => true,
        None => false,
    }
}

/// Reads a message.
fn read_reply<S: Scheme>(
    alloc: Global,
    schemes: &Schemes<S>,
    peer: &S::Key,
    input: &mut Bytes,
) -> Result<Decoded<S::Certificate>, CodecError>
    ensures { IsReadAs (setup S.Key.cmp S.Key.eq S.certificates S.keys S.certifies schemes.now)
        peer.now input.old result }
{
    match Tag::read(input)? {
        Tag::Request => Ok(Decoded::Ignored),
        Tag::Response => read_response(alloc, schemes, peer, input),
    }
}

/// Reads what stands before the certificate: the round, the view of the parent and the payload. It
/// takes no memory.
fn read_header(input: &mut Bytes) -> Result<(Round, View, Digest), CodecError>
    ensures found { IfOk result (λ h. IsHeader h.0 h.1 h.2 input.old input.new) }
    ensures none { IfErr result (λ e. (round : Round) → HasHeader (1 ∷ input.old) round → ⊥) }
    ensures memory { IsErrOf result CodecError.OutOfMemory → ⊥ }
{
    let round = Round::read(input)?;
    let parent = View(read_u64(input)?);
    let payload = Digest::read(input)?;
    Ok((round, parent, payload))
}

/// Reads a response behind its tag. The certificate is read only where it could make a good reply
/// of this peer.
fn read_response<S: Scheme>(
    alloc: Global,
    schemes: &Schemes<S>,
    peer: &S::Key,
    input: &mut Bytes,
) -> Result<Decoded<S::Certificate>, CodecError>
    ensures read { IsReadAs (setup S.Key.cmp S.Key.eq S.certificates S.keys S.certifies schemes.now)
        peer.now (1 ∷ input.old) result }
    ensures unread { (round : Round) (header : HasHeader (1 ∷ input.old) round)
        → IsHopeless (setup S.Key.cmp S.Key.eq S.certificates S.keys S.certifies schemes.now)
        S.max_size peer.now round.epoch (length header.rest)
        → input.new ≡ header.rest }
{
    let (round, parent, payload) = read_header(input)?;
    let Some(scheme) = schemes.counted(round.epoch) else {
        return Ok(Decoded::Ignored);
    };
    if is_hopeless(schemes, scheme, peer, input.len()) {
        return Ok(Decoded::AtFault);
    }
    let certificate = S::read_certificate(alloc, input)?;
    end_of(input)?;
    Ok(Decoded::Whole(Finalization {
        round,
        parent,
        payload,
        certificate,
    }))
}

/// What the bytes of a peer hold.
fn decode_finalization<S: Scheme>(
    alloc: Global,
    schemes: &Schemes<S>,
    peer: &S::Key,
    value: Bytes,
) -> Result<Decoded<S::Certificate>, OutOfMemory>
    ensures { IfOk result (IsDecodedAs
        (setup S.Key.cmp S.Key.eq S.certificates S.keys S.certifies schemes.now) peer.now value) }
{
    let mut input = value;
    match read_reply(alloc, schemes, peer, &mut input) {
        Ok(decoded) => Ok(decoded),
        Err(CodecError::OutOfMemory) => Err(OutOfMemory),
        Err(CodecError::EndOfBuffer | CodecError::InvalidEnum(_)) => Ok(Decoded::AtFault),
    }
}

/// What a finalization is worth that a peer sent, whichever bytes hold it.
fn verify_finalization<S: Scheme>(
    schemes: &Schemes<S>,
    finalization: Finalization<S::Certificate>,
) -> Judgement<S::Certificate>
    ensures { let u = setup S.Key.cmp S.Key.eq S.certificates S.keys S.certifies schemes.now in
        (peer : S.Key) (bytes : List ℕ)
        → IsDecodedAs u peer bytes (Decoded.Whole finalization)
        → IsJudgedAs u peer bytes result }
{
    let Some(_lowest) = schemes.lowest() else {
        return Judgement::Ignored;
    };
    let Some(scheme) = schemes.scheme(finalization.round.epoch) else {
        return Judgement::Ignored;
    };
    if scheme.verify(&finalization) {
        Judgement::Good(finalization)
    } else {
        Judgement::AtFault
    }
}

/// What the bytes of a peer are worth.
pub(crate) fn judge<S: Scheme>(
    alloc: Global,
    schemes: &Schemes<S>,
    peer: &S::Key,
    value: Bytes,
) -> Result<Judgement<S::Certificate>, OutOfMemory>
    ensures { IfOk result (IsJudgedAs
        (setup S.Key.cmp S.Key.eq S.certificates S.keys S.certifies schemes.now) peer.now value) }
{
    match decode_finalization(alloc, schemes, peer, value)? {
        Decoded::Ignored => Ok(Judgement::Ignored),
        Decoded::AtFault => Ok(Judgement::AtFault),
        Decoded::Whole(finalization) => Ok(verify_finalization(schemes, finalization)),
    }
}
