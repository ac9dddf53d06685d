//! Parts of a URL, decoded.

ghost use Rattle.std.specs.Prelude.{◌≡◌, IfOk};
ghost use Rattle.std.specs.Cow.{cow_str_bytes};
ghost use Rattle.amqp_uri.specs.Decoding.{decoded};

use amqp_types::{NoMemory, Text};
use percent_encoding::percent_decode;
use std::alloc::{AllocError, Global};
use std::borrow::CowStr;

/// The part with its escapes decoded, and U+FFFD for what is not UTF-8. A part that has no escape is
/// not copied.
pub fn decoded(alloc: Global, part: &[u8]) -> Result<CowStr<'_>, AllocError>
    ensures { IfOk result (λ text. cow_str_bytes text ≡ decoded part.now) }
{
    percent_decode(part).decode_utf8_lossy(alloc)
}

/// The same as a text of its own.
pub fn decoded_text(alloc: Global, part: &str) -> Result<Text, NoMemory>
    ensures { IfOk result (λ text. text ≡ decoded part.now) }
{
    let part = decoded(alloc, part.as_bytes())?;
    Text::new(alloc, part.as_str())
}
