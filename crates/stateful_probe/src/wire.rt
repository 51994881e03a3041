//! What peers send each other.

ghost use Rattle.std.specs.Prelude.{◌≡◌, ◌+◌, ◌≤◌, length, IsErrOf};
ghost use Rattle.stateful_base.specs.Format.{Reads, Writes, IsFormat};
ghost use Rattle.stateful_base.specs.declared.finalization.Finalization.{Finalization};
ghost use Rattle.stateful_probe.specs.Wire.{tag_format, message_format};

use bytes::Bytes;
use stateful_types::{CodecError, Finalization, OutOfMemory, Scheme, read_u8, write_u8};
use std::alloc::Global;

/// The first byte of a message.
#[derive(Clone, Copy, Debug, PartialEq, Eq)]
pub enum Tag {
    /// A request for the latest finalization.
    Request,
    /// A response with a finalization.
    Response,
}

impl Tag {
    /// Appends byte 0 for a request and byte 1 for a response.
    pub fn write(self, out: &mut Vec<u8>) -> Result<(), OutOfMemory>
        ensures { Writes tag_format self result out.old.items out.new.items }
    {
        match self {
            Tag::Request => write_u8(0, out),
            Tag::Response => write_u8(1, out),
        }
    }

    /// Takes a tag. It takes no memory.
    pub fn read(input: &mut Bytes) -> Result<Tag, CodecError>
        ensures reads { Reads tag_format result input.old input.new }
        ensures memory { IsErrOf result CodecError.OutOfMemory → ⊥ }
    {
        match read_u8(input)? {
            0 => Ok(Tag::Request),
            1 => Ok(Tag::Response),
            other => Err(CodecError::InvalidEnum(other)),
        }
    }
}

/// A message between probes.
#[derive(Drop)]
pub enum Message<C> {
    /// Asks for the latest finalization.
    Request,
    /// The latest finalization of the sender.
    Response(Finalization<C>),
}

impl<C> Message<C> {
    /// Appends byte 0, or byte 1 and the finalization.
    pub fn write<S: Scheme<Certificate = C>>(&self, out: &mut Vec<u8>) -> Result<(), OutOfMemory>
        ensures { Writes (message_format S.certificates) self.now result out.old.items
            out.new.items }
    {
        match self {
            Message::Request => Tag::Request.write(out),
            Message::Response(finalization) => {
                Tag::Response.write(out)?;
                finalization.write::<S>(out)
            }
        }
    }

    /// Takes a message. Bytes after it are left unread.
    pub fn read<S: Scheme<Certificate = C>>(
        alloc: Global,
        input: &mut Bytes,
    ) -> Result<Message<C>, CodecError>
        ensures { Reads (message_format S.certificates) result input.old input.new }
    {
        match Tag::read(input)? {
            Tag::Request => Ok(Message::Request),
            Tag::Response => Ok(Message::Response(Finalization::read::<S>(alloc, input)?)),
        }
    }

    /// How many bytes it has: 1, or 57 and those of the certificate.
    pub fn encode_size<S: Scheme<Certificate = C>>(&self) -> usize
        ensures { result ≡ length ((message_format S.certificates).spelling self.now) }
    {
        match self {
            Message::Request => 1,
            Message::Response(finalization) => 1 + finalization.encode_size::<S>(),
        }
    }

    /// How many bytes a message has at most whose finalization holds under a scheme of at most so
    /// many participants.
    pub fn max_encode_size<S: Scheme<Certificate = C>>(participants: u32) -> usize
        ensures formula { result ≡ 57 + S.max_size participants }

        // No message is longer: a request isn't, and no response whose finalization such a scheme
        // certifies.
        ensures requests { 1 ≤ result }
        ensures responses { (scheme : S) (f : Finalization C)
            → S.certifies scheme f
            → length (S.keys scheme) ≤ participants
            → (message_format S.certificates).fits (Message.Response f)
            → length ((message_format S.certificates).spelling (Message.Response f)) ≤ result }
    {
        57 + S::max_certificate_size(participants)
    }
}

/// In both formats no spelling begins another.
pub fn no_message_begins_another<S: Scheme>()
    ensures tags { IsFormat tag_format }
    ensures messages { IsFormat (message_format S.certificates) }
{}
