//! Texts in the body of a length field.

ghost use Rattle.std.specs.Prelude.{◌≡◌, string_bytes, IfOk};
ghost use Rattle.someip_payload_values.specs.Steps.{Gives};
ghost use Rattle.someip_payload_codec.specs.Reading.{without_mark, is_little, unit_of, units_of, through_zero, utf8_at, utf16_in, text_at, padded_at};

use someip_payload_values::{Encoding, PayloadError};
use std::alloc::{AllocError, Global};

/// The text of a body whose length field stands at the place.
#[tactic(auto, unfolding(crate::specs::Reading::text_at))]
pub(crate) fn text(
    alloc: Global,
    encoding: Encoding,
    place: usize,
    body: &[u8],
) -> Result<String, PayloadError>
    ensures { Gives (λ s. string_bytes s) result (text_at encoding place body.now) }
{
    match encoding {
        Encoding::Utf8 => utf8(alloc, place, body),
        Encoding::Utf16 => {
            let units = units(alloc, !is_little_endian(body), body)?;
            utf16(alloc, place, &units)
        }
    }
}

/// The text of a window of so many bytes, which ends at its first zero character.
#[tactic(auto, unfolding(crate::specs::Reading::padded_at))]
pub(crate) fn padded(
    alloc: Global,
    encoding: Encoding,
    place: usize,
    bytes: &[u8],
) -> Result<String, PayloadError>
    ensures { Gives (λ s. string_bytes s) result (padded_at encoding place bytes.now) }
{
    match encoding {
        Encoding::Utf8 => utf8(alloc, place, bytes_through_zero(bytes)),
        Encoding::Utf16 => {
            let units = units(alloc, !is_little_endian(bytes), bytes)?;
            utf16(alloc, place, units_through_zero(&units))
        }
    }
}

/// The bytes up to the first zero, with it.
fn bytes_through_zero(bytes: &[u8]) -> &[u8]
    ensures { result.now ≡ through_zero bytes.now }
{
    for i in 0..bytes.len() {
        if bytes[i] == 0 {
            return &bytes[..i + 1];
        }
    }
    bytes
}

/// The units up to the first zero, with it.
fn units_through_zero(units: &[u16]) -> &[u16]
    ensures { result.now ≡ through_zero units.now }
{
    for i in 0..units.len() {
        if units[i] == 0 {
            return &units[..i + 1];
        }
    }
    units
}

#[tactic(auto, using(crate::proofs::texts::Strings::is_utf8_true, crate::proofs::texts::Strings::is_utf8_false), unfolding(crate::specs::Reading::utf8_at))]
fn utf8(alloc: Global, place: usize, body: &[u8]) -> Result<String, PayloadError>
    ensures { Gives (λ s. string_bytes s) result (utf8_at place body.now) }
{
    if body.is_empty() || body[body.len() - 1] != 0 {
        return Err(PayloadError::NoTerminator(place));
    }
    match str::from_utf8(after_mark(&body[..body.len() - 1])) {
        Ok(text) => Ok(String::from_str(alloc, text)?),
        Err(_) => Err(PayloadError::BadText(place)),
    }
}

/// What comes after the byte order mark of UTF-8, if there is one.
fn after_mark(bytes: &[u8]) -> &[u8]
    ensures { result.now ≡ without_mark bytes.now }
{
    if bytes.len() >= 3 && bytes[0] == 0xef && bytes[1] == 0xbb && bytes[2] == 0xbf {
        &bytes[3..]
    } else {
        bytes
    }
}

#[tactic(auto, unfolding(crate::specs::Reading::utf16_in))]
fn utf16(alloc: Global, place: usize, units: &[u16]) -> Result<String, PayloadError>
    ensures { Gives (λ s. string_bytes s) result (utf16_in place units.now) }
{
    if units.is_empty() || units[units.len() - 1] != 0 {
        return Err(PayloadError::NoTerminator(place));
    }
    if units[0] != 0xfeff {
        return Err(PayloadError::BadText(place));
    }
    match String::from_utf16(alloc, &units[1..units.len() - 1])? {
        Ok(text) => Ok(text),
        Err(_) => Err(PayloadError::BadText(place)),
    }
}

/// Whether the byte order mark has its lower byte first.
fn is_little_endian(body: &[u8]) -> bool
    ensures { result ≡ is_little body.now }
{
    body.len() > 1 && body[0] == 0xff && body[1] == 0xfe
}

/// The units of UTF-16, without an odd byte at the end.
fn units(alloc: Global, is_big: bool, bytes: &[u8]) -> Result<Vec<u16>, AllocError>
    ensures { IfOk result (λ v. v.items ≡ units_of is_big bytes.now) }
{
    let mut units = Vec::new(alloc);
    let mut at = 0;
    while bytes.len() - at > 1 {
        units.push(unit(is_big, bytes[at], bytes[at + 1]))?;
        at += 2;
    }
    Ok(units)
}

fn unit(is_big: bool, first: u8, second: u8) -> u16
    ensures { result ≡ unit_of is_big first second }
{
    if is_big {
        u16::from_be_bytes([first, second])
    } else {
        u16::from_le_bytes([first, second])
    }
}
