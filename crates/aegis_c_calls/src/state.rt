//! The calls on a state that C owns between them. C may pass a state that no call has begun, or one that it has
//! changed. So the mark, the role and the two numbers of bytes are checked, and each body is safe for any other bytes.

ghost use Rattle.std.specs.Prelude.{◌≡◌, ◌≢◌, ◌+◌, ◌≤◌, ℤ, IfErr, IfSome, OnOk, length};
ghost use Rattle.aegis_base.specs.Variant.{key_length};
ghost use Rattle.aegis_c_calls.specs.Calls.{Begins, MacFinal, MacFinalVerify, MacUpdate, StateDecryptCheck, StateDecryptFinal, StateDecryptUnverified, StateEncrypt, StateEncryptFinal};
ghost use Rattle.aegis_engine.specs.Pass.{given};
ghost use Rattle.aegis_c_calls.specs.Codes.{chunk_code, given_code, more_code, number_of, reading_role, role_code, success};
ghost use Rattle.aegis_c_calls.specs.Private.{code_of};

use crate::keys::message_keys;
use crate::refusal::Refusal;
use aegis_base::{MAX_AEAD_BYTES, SavedLanes};
use aegis_engine::{BEGUN, ERASED, SavedContext};

/// A message, or a MAC, between two calls: its context, the number of its variant, and its role.
#[repr(C)]
#[derive(Clone, Copy)]
pub struct State {
    pub context: SavedContext,
    pub variant: u32,
    pub role: u32,
}

/// A message that may be encrypted, decrypted or checked. Its first call decides.
pub const MESSAGE: u32 = 1;

/// A message that is encrypted.
pub const ENCRYPTING: u32 = 2;

/// A message that is decrypted.
pub const DECRYPTING: u32 = 3;

/// A MAC.
pub const MAC: u32 = 4;

/// A message that is checked: its ciphertext is decrypted, and not written.
pub const CHECKING: u32 = 6;

/// A state after its end: zeros.
pub const ENDED: State = State {
    context: aegis_engine::ENDED,
    variant: 0,
    role: 0,
};

// The size of a state in the header.
const _: () = prove!(size_of::<State>() == 672);

/// Refuses a state that lacks the mark, was begun as neither `begun` nor has gone on as `role`, or has a number past
/// the limit.
pub fn check_state(st: &State, begun: u32, role: u32) -> Result<(), Refusal>
    ensures associated_data { OnOk result (st.now.context.ad_bytes ≤ MAX_AEAD_BYTES) }
    ensures message { OnOk result (st.now.context.message_bytes ≤ MAX_AEAD_BYTES) }
    ensures right { OnOk result ((rest : ℤ) → role_code st.now begun role rest ≡ rest) }
    ensures wrong { IfErr result (λ refusal. (rest : ℤ)
        → role_code st.now begun role rest ≡ number_of refusal) }
    ensures refusal { IfErr result (λ refusal. number_of refusal ≡ number_of Refusal.WrongState) }
{
    if st.role != begun && st.role != role {
        return Err(Refusal::WrongState);
    }
    let context = &st.context;
    if context.mark != BEGUN
        || context.ad_bytes > MAX_AEAD_BYTES
        || context.message_bytes > MAX_AEAD_BYTES
    {
        return Err(Refusal::WrongState);
    }
    Ok(())
}

// The same for a state and the number of the next bytes, which is refused too if the message would be too long.
fn check_chunk(st: &State, begun: u32, role: u32, more: usize) -> Result<(), Refusal>
    ensures associated_data { OnOk result (st.now.context.ad_bytes ≤ MAX_AEAD_BYTES) }
    ensures message { OnOk result (st.now.context.message_bytes + more ≤ MAX_AEAD_BYTES) }
    ensures right { OnOk result (role_code st.now begun role (more_code st.now more) ≡ success) }
    ensures wrong { IfErr result (λ refusal.
        role_code st.now begun role (more_code st.now more) ≡ number_of refusal) }
    ensures not_done { IfErr result (λ refusal. number_of refusal ≢ success) }
{
    check_state(st, begun, role)?;
    if more as u64 > MAX_AEAD_BYTES - st.context.message_bytes {
        return Err(Refusal::MessageTooLong);
    }
    Ok(())
}

// Returns the role that a message must be in when its tag is verified.
#[tactic(auto, unfolding(crate::specs::Codes::reading_role))]
fn reading_role(st: &State) -> u32
    ensures { result ≡ reading_role st.now }
{
    if st.role == CHECKING {
        CHECKING
    } else {
        DECRYPTING
    }
}

// Refuses to be given so many bytes of a message at its end, unless they are all or none. A message that was checked
// has none.
#[tactic(auto, unfolding(crate::specs::Codes::given_code))]
fn check_given(st: &State, given: usize) -> Result<(), Refusal>
    ensures right { OnOk result ((rest : ℤ) → given_code st.now given rest ≡ rest) }
    ensures wrong { IfErr result (λ refusal. (rest : ℤ)
        → given_code st.now given rest ≡ number_of refusal) }
    ensures refusal { IfErr result (λ refusal. number_of refusal
        ≡ number_of Refusal.WrongMessageLength) }
{
    if given == 0 {
        return Ok(());
    }
    if st.role == CHECKING || given as u64 != st.context.message_bytes {
        return Err(Refusal::WrongMessageLength);
    }
    Ok(())
}

/// Returns why [`encrypt`] of so many bytes would be refused, if it would be.
pub fn may_encrypt<S: SavedLanes>(st: &State, more: usize) -> Result<(), Refusal>
    ensures { code_of result ≡ chunk_code (Some S.VARIANT) st.now MESSAGE ENCRYPTING more }
{
    check_chunk(st, MESSAGE, ENCRYPTING, more)?;
    Ok(())
}

/// Returns why [`decrypt_unverified`] of so many bytes would be refused, if it would be.
pub fn may_decrypt<S: SavedLanes>(st: &State, more: usize) -> Result<(), Refusal>
    ensures { code_of result ≡ chunk_code (Some S.VARIANT) st.now MESSAGE DECRYPTING more }
{
    check_chunk(st, MESSAGE, DECRYPTING, more)?;
    Ok(())
}

/// Begins a message, or a MAC, of a variant whose keys and nonces have `N` bytes.
#[inline(never)]
pub fn begin<S: SavedLanes, const N: usize>(
    st: &mut State,
    variant: u32,
    role: u32,
    ad: &[u8],
    npub: &[u8],
    k: &[u8],
) -> Result<(), Refusal>
    requires { N ≡ key_length S.VARIANT.family }
    ensures { Begins (Some S.VARIANT) variant role k.now npub.now ad.now st.old st.new
        (code_of result) }
{
    let (nonce, key) = message_keys::<N>(npub, k, 0, ad.len())?;
    st.context.begin::<S>(key, nonce, ad);
    st.variant = variant;
    st.role = role;
    Ok(())
}

/// Encrypts the next bytes of a message, which are `m`, or if it is `None`, `c`, into `c`.
#[inline(always)]
pub fn encrypt<S: SavedLanes>(st: &mut State, m: Option<&[u8]>, c: &mut [u8]) -> Result<(), Refusal>
    requires { IfSome m (λ s. length s.now ≡ length c.old) }
    ensures { StateEncrypt (Some S.VARIANT) st.old st.new (given m.entry c.old) c.old c.new
        (code_of result) }
{
    check_chunk(st, MESSAGE, ENCRYPTING, c.len())?;
    st.context.encrypt::<S>(m, c);
    st.role = ENCRYPTING;
    Ok(())
}

/// Decrypts the next bytes of a ciphertext, which are `c`, or if it is `None`, `m`, into `m`, before the tag is known.
#[inline(always)]
pub fn decrypt_unverified<S: SavedLanes>(
    st: &mut State,
    c: Option<&[u8]>,
    m: &mut [u8],
) -> Result<(), Refusal>
    requires { IfSome c (λ s. length s.now ≡ length m.old) }
    ensures { StateDecryptUnverified (Some S.VARIANT) st.old st.new (given c.entry m.old)
        m.old m.new (code_of result) }
{
    check_chunk(st, MESSAGE, DECRYPTING, m.len())?;
    st.context.decrypt_unverified::<S>(c, m);
    st.role = DECRYPTING;
    Ok(())
}

/// Takes in the next bytes of a ciphertext, without writing the message.
#[inline(always)]
pub fn decrypt_check<S: SavedLanes>(st: &mut State, c: &[u8]) -> Result<(), Refusal>
    ensures { StateDecryptCheck (Some S.VARIANT) st.old st.new c.now (code_of result) }
{
    check_chunk(st, MESSAGE, CHECKING, c.len())?;
    st.context.decrypt_check::<S>(c);
    st.role = CHECKING;
    Ok(())
}

/// Writes the tag of a message that was encrypted, and ends the state.
#[inline(never)]
pub fn encrypt_final<S: SavedLanes>(st: &mut State, mac: &mut [u8]) -> Result<(), Refusal>
    ensures { StateEncryptFinal (Some S.VARIANT) st.old st.new mac.old mac.new (code_of result) }
{
    check_state(st, MESSAGE, ENCRYPTING)?;
    if mac.len() == 16 {
        mac.copy_from_slice(&st.context.tag::<S, 16>());
    } else if mac.len() == 32 {
        mac.copy_from_slice(&st.context.tag::<S, 32>());
    } else {
        return Err(Refusal::WrongTagLength);
    }
    *st = ENDED;
    Ok(())
}

/// Refuses `mac` exactly if it is not the tag of a message that was decrypted or checked; then every byte of `m` is
/// `ERASED`. Both end the state. `m` is the whole message, or empty, as it must be after a check.
#[inline(never)]
pub fn decrypt_final<S: SavedLanes>(st: &mut State, m: &mut [u8], mac: &[u8]) -> Result<(), Refusal>
    ensures { StateDecryptFinal (Some S.VARIANT) st.old st.new m.old m.new mac.now
        (code_of result) }
{
    check_state(st, MESSAGE, reading_role(st))?;
    check_given(st, m.len())?;
    let is_right = if let Some(tag) = mac.as_array() {
        st.context.has_tag::<S, 16>(tag)
    } else if let Some(tag) = mac.as_array() {
        st.context.has_tag::<S, 32>(tag)
    } else {
        return Err(Refusal::WrongTagLength);
    };
    *st = ENDED;
    if is_right {
        Ok(())
    } else {
        m.fill(ERASED);
        Err(Refusal::InvalidTag)
    }
}

/// Takes in the next bytes of the input of a MAC.
#[inline(always)]
pub fn mac_update<S: SavedLanes>(st: &mut State, input: &[u8]) -> Result<(), Refusal>
    ensures { MacUpdate (Some S.VARIANT) st.old st.new input.now (code_of result) }
{
    check_chunk(st, MAC, MAC, input.len())?;
    st.context.absorb::<S>(input);
    Ok(())
}

/// Writes the MAC of the input so far. The state is unchanged.
#[inline(never)]
pub fn mac_final<S: SavedLanes>(st: &State, mac: &mut [u8]) -> Result<(), Refusal>
    ensures { MacFinal (Some S.VARIANT) st.now mac.old mac.new (code_of result) }
{
    if st.context.ad_bytes != 0 {
        return Err(Refusal::WrongState);
    }
    check_state(st, MAC, MAC)?;
    if mac.len() == 16 {
        mac.copy_from_slice(&st.context.mac::<S, 16>());
    } else if mac.len() == 32 {
        mac.copy_from_slice(&st.context.mac::<S, 32>());
    } else {
        return Err(Refusal::WrongTagLength);
    }
    Ok(())
}

/// Refuses `mac` exactly if it is not the MAC of the input so far. The state is unchanged.
#[inline(never)]
pub fn mac_final_verify<S: SavedLanes>(st: &State, mac: &[u8]) -> Result<(), Refusal>
    ensures { MacFinalVerify (Some S.VARIANT) st.now mac.now (code_of result) }
{
    if st.context.ad_bytes != 0 {
        return Err(Refusal::WrongState);
    }
    check_state(st, MAC, MAC)?;
    let is_right = if let Some(expected) = mac.as_array() {
        st.context.has_mac::<S, 16>(expected)
    } else if let Some(expected) = mac.as_array() {
        st.context.has_mac::<S, 32>(expected)
    } else {
        return Err(Refusal::WrongTagLength);
    };
    if is_right {
        Ok(())
    } else {
        Err(Refusal::InvalidTag)
    }
}
