//! Borrowed destinations: the message at their start is returned, or overwritten with zeros.

ghost use Rattle.std.specs.Prelude.{◌≡◌, ℕ, ◌≤◌, ◌++◌, IfErr, MatchResult, OnErr, OnOk, drop, false, length, take, true};
ghost use Rattle.std.specs.Borrow.{Array, LendsIfOk, sem, u8};
ghost use Rattle.aegis_base.specs.Chunks.{zeroed};

use aegis_base::Error;

/// A destination whose first `filled` bytes are a message. If it is not accepted, they are zeros.
#[derive(Drop)]
pub struct Checked<'a> {
    pub dst: &'a mut [u8],
    pub filled: usize,
    pub accepted: bool,
}

/// Returns the message if it is accepted, and otherwise [`Error::InvalidTag`].
pub fn accepted_message<'a>(checked: Checked<'a>) -> Result<&'a mut [u8], Error>
    requires within { checked.filled ≤ length checked.dst.now }
    requires erased { checked.accepted ≡ false
        → checked.dst.now ≡ zeroed checked.filled checked.dst.now }
    ensures* writes_back { sem 𝓛 (LendsIfOk (Array u8 0) (Array u8 0) checked.entry.dst result
        (λ w. w ++ drop checked.entry.filled checked.entry.dst.now)
        (zeroed checked.entry.filled checked.entry.dst.now)) }
    ensures cases { MatchResult result
        (λ message. (checked.entry.accepted ≡ true)
        × (message.now ≡ take checked.entry.filled checked.entry.dst.now)
        × (message.ref_ptr ≡ checked.entry.dst.ref_ptr))
        (λ e. (checked.entry.accepted ≡ false) × (e ≡ Error.InvalidTag)) }
{
    let Checked {
        dst,
        filled,
        accepted,
    } = checked;
    if accepted {
        Ok(&mut dst[..filled])
    } else {
        Err(Error::InvalidTag)
    }
}

/// Overwrites the first `filled` bytes with zeros.
pub fn erase(dst: &mut [u8], filled: usize)
    requires { filled ≤ length dst.old }
    ensures { dst.new ≡ zeroed filled dst.old }
{
    dst[..filled].fill(0);
}

/// Overwrites the first `filled` bytes with zeros, unless they are accepted.
#[tactic(auto, using(crate::proofs::DestinationFacts::rest_stays))]
pub fn erase_unless(dst: &mut [u8], filled: usize, accepted: bool)
    requires { filled ≤ length dst.old }
    ensures kept { accepted ≡ true → dst.new ≡ dst.old }
    ensures erased { accepted ≡ false → dst.new ≡ zeroed filled dst.new }
    ensures rest { drop filled dst.new ≡ drop filled dst.old }
{
    if !accepted {
        erase(dst, filled);
    }
}

/// Returns the length of the message if it is accepted. Otherwise overwrites it with zeros, and returns
/// [`Error::InvalidTag`].
pub fn accepted_len(dst: &mut [u8], filled: usize, accepted: bool) -> Result<usize, Error>
    requires { filled ≤ length dst.old }
    ensures filled { OnOk result (result ≡ Ok filled) }
    ensures message { OnOk result (dst.new ≡ dst.old) }
    ensures erased { OnErr result (dst.new ≡ zeroed filled dst.old) }
    ensures error { IfErr result (λ e. e ≡ Error.InvalidTag) }
    ensures accepted { MatchResult result (λ _. accepted ≡ true) (λ _. accepted ≡ false) }
{
    if accepted {
        Ok(filled)
    } else {
        erase(dst, filled);
        Err(Error::InvalidTag)
    }
}
