//! The commitment of a file: one MAC over the tags of all pages.
//!
//! The tag of a page that opens stands for its nonce, its ciphertext and its number in this file. So a MAC over the
//! tags in order, and over the newest header's counter and length, stands for all of a file whose pages open.

ghost use Rattle.std.specs.Prelude.{◌≡◌, ◌*◌, ◌≤◌, false, IfErr, IfOk, IfSome, OnOk};
ghost use Rattle.aegis_pages.specs.Commits.{IsStorageReadError, IsVerifyRefusal, commitment, page_tag};

use crate::error::PagesError;
use crate::layout::{FileLayout, MAX_CONTENTS_BYTES, TAG_BYTES};
use aegis_base::{LaneState, SavedLanes};
use aegis_engine::{ENDED, same_bytes};
use aegis_storage::Storage;

/// Reads the tag of a page, its last bytes. Returns [`PagesError::Read`].
#[tactic(auto, using(crate::proofs::CommitmentFacts::tag_end))]
pub fn read_tag<S: Storage, L: LaneState, const KEY_BYTES: usize>(
    storage: &S,
    layout: &FileLayout<L, KEY_BYTES>,
    number: u64,
) -> Result<[u8; TAG_BYTES], PagesError>
    requires { number * layout.now.page_bytes ≤ MAX_CONTENTS_BYTES }
    ensures tag { IfOk result (λ tag. IfSome (S.bytes storage.now)
        (λ file. tag ≡ page_tag layout.now file number)) }
    ensures refused { IfErr result IsStorageReadError }
{
    let before_tag = layout.nonce_bytes() as u64 + layout.page_bytes() as u64;
    let place = layout.page_place(number) + before_tag;
    let mut tag = [0; TAG_BYTES];
    match storage.read_at(place, &mut tag) {
        Ok(()) => Ok(tag),
        Err(error) => Err(PagesError::Read(error)),
    }
}

/// Returns the commitment of a file. Returns [`PagesError::Read`].
#[tactic(auto, using(crate::proofs::CommitmentFacts::saved_laws))]
pub fn file_commitment<S: Storage, L: SavedLanes, const KEY_BYTES: usize>(
    storage: &S,
    layout: &FileLayout<L, KEY_BYTES>,
    counter: u64,
    len: u64,
) -> Result<[u8; TAG_BYTES], PagesError>
    requires { len ≤ MAX_CONTENTS_BYTES }
    ensures is { IfOk result (λ mac. IfSome (S.bytes storage.now)
        (λ file. mac ≡ commitment layout.now counter len file)) }
    ensures refused { IfErr result IsStorageReadError }
{
    // A saved context and no `Mac`: a function that is generic in the key's length would owe a proof that a `Mac` fits
    // in memory.
    let mut context = ENDED;
    context.begin::<L>(layout.key(), &[255; KEY_BYTES], &[]);
    context.absorb::<L>(&layout.plaintext_header());
    context.absorb::<L>(&counter.to_le_bytes());
    context.absorb::<L>(&len.to_le_bytes());
    for number in 0..layout.page_count(len) {
        let tag = match read_tag(storage, layout, number) {
            Ok(tag) => tag,
            Err(error) => {
                context.end();
                return Err(error);
            }
        };
        context.absorb::<L>(&tag);
    }
    let mac = context.mac::<L, TAG_BYTES>();
    context.end();
    Ok(mac)
}

/// Compares the commitment of a file with `expected`. Returns [`PagesError::Read`] or [`PagesError::Commitment`].
pub fn verify_commitment<S: Storage, L: SavedLanes, const KEY_BYTES: usize>(
    storage: &S,
    layout: &FileLayout<L, KEY_BYTES>,
    counter: u64,
    len: u64,
    expected: &[u8; TAG_BYTES],
) -> Result<(), PagesError>
    requires { len ≤ MAX_CONTENTS_BYTES }
    ensures is { OnOk result (IfSome (S.bytes storage.now)
        (λ file. expected.now ≡ commitment layout.now counter len file)) }
    ensures refused { IfErr result
        (IsVerifyRefusal false layout.now counter len (S.bytes storage.now) expected.now) }
{
    let mac = file_commitment(storage, layout, counter, len)?;
    if same_bytes(&mac, expected) {
        Ok(())
    } else {
        Err(PagesError::Commitment)
    }
}
