//! Where nonces come from.

ghost use Rattle.std.specs.Prelude.{IfErr, ⊤};
ghost use Rattle.std.specs.declared.io.Error.{Error};

use std::io;

/// A source of nonces. It must never return a nonce twice for one key: use random bytes of the system, or a counter
/// that is never set back. It must never return the nonce whose bytes are all 255, which
/// [`crate::Pages::commitment`] uses. No contract says that a nonce is fresh, or that it differs from that one.
///
/// Its ghost member `errors` has the errors that it may return. A source that never fails has none.
pub trait Nonces {
    // Which errors it may return.
    ghost errors: { Error → Type 0 } = { λ _. ⊤ };

    /// Fills `nonce`, or returns an error. It has 16 or 32 bytes, as the variant has, and 16 for a journal.
    fn draw(&mut self, nonce: &mut [u8]) -> io::Result<()>
        ensures { IfErr result errors };
}
