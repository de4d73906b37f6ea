//! Writing a part of a slice, and arrays of parts.

ghost use Rattle.std.specs.Prelude.{◌≡◌, ◌+◌, ◌-◌, ◌≤◌, ◌++◌, length, replicate, take};
ghost use Rattle.aegis_base.specs.Chunks.{joined};
ghost use Rattle.aegis_storage.specs.Disk.{overwritten};

/// Writes `part` over the bytes from `at` on.
pub fn put(bytes: &mut [u8], at: usize, part: &[u8])
    requires { at + length part.now ≤ length bytes.old }
    ensures { bytes.new ≡ overwritten bytes.old at part.now }
{
    bytes[at..at + part.len()].copy_from_slice(part);
}

/// Writes zeros over all bytes from `at` on.
pub fn clear_from(bytes: &mut [u8], at: usize)
    requires { at ≤ length bytes.old }
    ensures { bytes.new ≡ take at bytes.old ++ replicate (length bytes.old - at) 0 }
{
    bytes[at..].fill(0);
}

/// Returns the parts, one after the other.
#[tactic(auto, using(crate::proofs::Overwriting::filling))]
pub fn array_of<const N: usize>(parts: &[&[u8]]) -> [u8; N]
    requires { length (joined parts.now) ≡ N }
    ensures { result ≡ joined parts.now }
{
    let mut bytes = [0; N];
    let mut done = 0;
    for part in parts {
        put(&mut bytes, done, part);
        done += part.len();
    }
    bytes
}
