//! The bytes of messages (SOME/IP Service Discovery, "SOME/IP-SD Header").
ghost use Rattle.std.specs.Prelude.{◌≡◌, ◌<◌, ◌≤◌, ◌^◌, ◌+◌, ◌++◌, ℕ, List, length, IfOk, IfErr, OnOk, OnErr, Some};
ghost use Rattle.sd_wire.specs.declared.error.SdError.TheVariants.{OutOfMemory};
ghost use Rattle.sd_wire.specs.layout.Fields.{flags_byte, number32};
ghost use Rattle.sd_wire.specs.layout.Spelling.{sd_bytes};
ghost use Rattle.sd_wire.specs.contents.Values.{view_message};
ghost use Rattle.sd_wire.specs.decoding.Reading.{Sd};
ghost use Rattle.sd_wire.specs.encoding.Writing.{WritesSd, TooMany, IsWriteError, as_read};
ghost use Rattle.sd_wire.specs.encoding.Written.{Appends, Refuses, HasNoBytes};
ghost use Rattle.std.specs.Option.{option_map};
ghost use Rattle.sd_wire.specs.encoding.Encoding.{message_bytes};
ghost use Rattle.sd_wire.specs.fronts.Splitting.{FitsDatagram};

use crate::error::SdError;
use crate::flags::SdFlags;
use crate::message::SdMessage;
use crate::packing::{pack, pool_text};
use std::alloc::{AllocError, Global};

/// Adds the bytes of the message at the end of `out`: the payload after the header of SOME/IP.
///
/// A run that the options so far hold in one piece is not written again. Entry by entry, the first
/// run before the second, a run stands at the least index at which they hold it so; if they hold it
/// nowhere, it is added whole at their end. A run of more than 15 options or one at an index
/// above 255 is `TooManyOptions`, with the number of its entry from 0. An `Err` leaves `out` as it
/// was.
///
/// Two Offers over one endpoint write it once:
///
/// ```text
/// c0000000 00000020
/// 01000010 11110001 01000003 00000000
/// 01000010 11110002 01000003 00000000   its run stands at index 0 too
/// 0000000c 0009 04 00 c0a80001 00 11 772d
/// ```
pub fn write_sd(message: &SdMessage, out: &mut Vec<u8>) -> Result<(), SdError>
    requires { length message.now.entries.now ≤ 65535 }
    // The text of the message is added, and it is read as the message.
    ensures written { OnOk result (Appends out.old.items out.new.items (view_message message.now)) }
    // The first entry that is refused is named.
    ensures refused { IfErr result (λ e. IsWriteError (view_message message.now) e) }
    // A message that has a text is written, unless memory runs out.
    ensures only { (text : List ℕ) → WritesSd (view_message message.now) text
        → IfErr result (λ e. e ≡ OutOfMemory) }
    // Where an entry is refused, it is named, unless memory runs out.
    ensures named { (number : ℕ) → TooMany (view_message message.now).entries number
        → Refuses number result }
    // Its bytes are those of the message as a function of it, and there are none where an entry is
    // refused.
    ensures exact { OnOk result (option_map (λ bytes. out.old.items ++ bytes)
        (message_bytes (view_message message.now)) ≡ Some out.new.items) }
    ensures none { IfErr result (λ e. HasNoBytes e (message_bytes (view_message message.now))) }
    // Entries that fit a datagram are written, unless memory runs out.
    ensures fits { FitsDatagram (view_message message.now).entries
        → IfErr result (λ e. e ≡ OutOfMemory) }
    // However long its options are, they leave room for a header before it.
    ensures bounded { OnOk result (length out.new.items ≤ length out.old.items + 2 ^ 25) }
    // A refused message leaves the vector as it was.
    ensures kept { OnErr result (out.new.items ≡ out.old.items) }
{
    let text = text_of(*out.allocator(), message)?;
    out.extend_from_slice(&text)?;
    Ok(())
}

/// The bytes of the message.
fn text_of(alloc: Global, message: &SdMessage) -> Result<Vec<u8>, SdError>
    requires { length message.now.entries.now ≤ 65535 }
    ensures writes { IfOk result (λ text. WritesSd (view_message message.now) text.items) }
    ensures holds { IfOk result (λ text. Sd (as_read (view_message message.now)) text.items) }
    ensures refused { IfErr result (λ e. IsWriteError (view_message message.now) e) }
    ensures bounded { IfOk result (λ text. length text.items ≤ 2 ^ 25) }
{
    let (entries, pool) = pack(alloc, message.entries)?;
    let options = pool_text(alloc, &pool)?;
    Ok(joined(alloc, message.flags, &entries, &options)?)
}

/// The flags, and the entries and the options, each after its length.
fn joined(
    alloc: Global,
    flags: SdFlags,
    entries: &[u8],
    options: &[u8],
) -> Result<Vec<u8>, AllocError>
    requires entries { length entries.now < 2 ^ 32 }
    requires options { length options.now < 2 ^ 32 }
    ensures { IfOk result (λ text. text.items
        ≡ sd_bytes (flags_byte flags) 0 0 0 entries.now options.now) }
{
    let mut text = Vec::new(alloc);
    text.extend_from_slice(&[flags.byte(), 0, 0, 0])?;
    put_part(entries, &mut text)?;
    put_part(options, &mut text)?;
    Ok(text)
}

/// Adds a part after its length.
fn put_part(part: &[u8], out: &mut Vec<u8>) -> Result<(), AllocError>
    requires { length part.now < 2 ^ 32 }
    ensures { OnOk result (out.new.items
        ≡ out.old.items ++ (number32 (length part.now) ++ part.now)) }
{
    out.extend_from_slice(&(part.len() as u32).to_be_bytes())?;
    out.extend_from_slice(part)?;
    Ok(())
}
