//! A session token: claims, which are not encrypted, and their MAC under the server's key.

ghost use Rattle.std.specs.Prelude.{◌≡◌, ◌≢◌, ◌≤◌, IsErr, IsOk, length, replicate};
ghost use Rattle.aegis_base.specs.Variant.{Aegis128L};
ghost use Rattle.aegis_base.specs.Mac.{mac};

use aegis::MAX_AEAD_BYTES;
use aegis::aegis128l::{Aegis128LMac, Error, Key, Tag};

/// The tag that goes out with the claims.
pub fn issue(key: &Key, claims: &[u8]) -> Tag<32>
    requires { length claims.now ≤ MAX_AEAD_BYTES }
    ensures { result ≡ mac Aegis128L 32 key.now (replicate 16 0) claims.now }
{
    let mut mac = Aegis128LMac::new(key);
    mac.update(claims);
    mac.finalize()
}

/// Whether a token that comes back has the tag that `issue` gives its claims.
pub fn check(key: &Key, claims: &[u8], tag: &Tag<32>) -> Result<(), Error>
    requires { length claims.now ≤ MAX_AEAD_BYTES }
    ensures issued { tag.now ≡ mac Aegis128L 32 key.now (replicate 16 0) claims.now
        → IsOk result }
    ensures only { IsOk result
        → tag.now ≡ mac Aegis128L 32 key.now (replicate 16 0) claims.now }
{
    let mut mac = Aegis128LMac::new(key);
    mac.update(claims);
    mac.verify(tag)
}
