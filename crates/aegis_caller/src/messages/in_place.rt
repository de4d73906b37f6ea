//! Seals a message in its place, and opens it again.

ghost use Rattle.std.specs.Prelude.{◌≡◌, ◌≤◌, IsOk, length};

use aegis::MAX_AEAD_BYTES;
use aegis::aegis128l::{Aegis128L, Error, Key, Nonce};

/// Decrypting what was encrypted succeeds, and gives the message.
pub fn round_trip(key: &Key, nonce: &Nonce, header: &[u8], message: &mut [u8]) -> Result<(), Error>
    requires header_within { length header.now ≤ MAX_AEAD_BYTES }
    requires message_within { length message.old ≤ MAX_AEAD_BYTES }
    ensures opened { IsOk result }
    ensures same { message.new ≡ message.old }
{
    let tag = Aegis128L::<32>::new(key, nonce).encrypt_in_place(message, header);
    Aegis128L::new(key, nonce).decrypt_in_place(message, &tag, header)
}
