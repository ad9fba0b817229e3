//! Texts as bytes.
//!
//! One byte order mark is taken off. A second is a character.
//!
//! A text in contracts is its bytes in UTF-8, however it is spelled on the wire.

ghost use Rattle.std.specs.Prelude.{◌≡◌, ◌++◌, true, flat_map, OnOk};
ghost use Rattle.std.specs.Char.Escape.{encode_utf16};
ghost use Rattle.someip_payload_values.specs.Texts.{unit_bytes};
ghost use Rattle.someip_payload_values.specs.Writing.{text_body};

use crate::shape::Encoding;
use std::alloc::AllocError;

/// Adds a text with mark and terminator.
#[tactic(auto, unfolding(crate::specs::Writing::text_body))]
pub(crate) fn put_text(encoding: Encoding, text: &str, out: &mut Vec<u8>) -> Result<(), AllocError>
    ensures { OnOk result (out.new.items ≡ out.old.items ++ text_body encoding text.now) }
{
    match encoding {
        Encoding::Utf8 => {
            out.extend_from_slice(&[0xef, 0xbb, 0xbf])?;
            out.extend_from_slice(text.as_bytes())?;
            out.push(0)?;
        }
        Encoding::Utf16 => {
            out.extend_from_slice(&[0xfe, 0xff])?;
            for c in text.chars() {
                put_char(c, out)?;
            }
            out.extend_from_slice(&[0, 0])?;
        }
    }
    Ok(())
}

/// Adds the units of a character, each with its higher byte first.
fn put_char(c: char, out: &mut Vec<u8>) -> Result<(), AllocError>
    ensures { OnOk result (out.new.items ≡ out.old.items ++ flat_map (unit_bytes true) (encode_utf16 c)) }
{
    let mut pair = [0; 2];
    for unit in c.encode_utf16(&mut pair) {
        out.extend_from_slice(&unit.to_be_bytes())?;
    }
    Ok(())
}
