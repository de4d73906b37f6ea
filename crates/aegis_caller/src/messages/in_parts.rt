//! A header that comes in parts.

ghost use Rattle.std.specs.Prelude.{◌≡◌, ◌≤◌, IsOk, length};
ghost use Rattle.aegis_base.specs.Chunks.{joined};

use aegis::MAX_AEAD_BYTES;
use aegis::aegis256::{Aegis256, Error, Key, Nonce};

/// Seals a message under a header in parts, and opens it under the header as a whole: it opens, and is what it was.
pub fn sealed_in_parts_and_opened(
    key: &Key,
    nonce: &Nonce,
    parts: &[&[u8]],
    header: &[u8],
    message: &mut [u8],
) -> Result<(), Error>
    requires parts { joined parts.now ≡ header.now }
    requires header_within { length header.now ≤ MAX_AEAD_BYTES }
    requires message_within { length message.old ≤ MAX_AEAD_BYTES }
    ensures opens { IsOk result }
    ensures same { message.new ≡ message.old }
{
    let tag = Aegis256::<32>::new(key, nonce).encrypt_in_place_with(message, parts);
    Aegis256::<32>::new(key, nonce).decrypt_in_place(message, &tag, header)
}
