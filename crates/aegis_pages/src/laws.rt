//! Laws: functions that do nothing, and whose contracts are facts about the definitions that the other contracts cite.

ghost use Rattle.std.specs.Prelude.{◌≡◌, ◌+◌, ◌≤◌, IfSome, List, Option, Some, length, ℕ};
ghost use Rattle.aegis_aes.specs.Lanes.{IsLaneCount};
ghost use Rattle.aegis_base.specs.Variant.{Variant, long_tag_bytes};
ghost use Rattle.aegis_storage.specs.Disk.{Crashed, Disk, certain, overwritten, part_at};
ghost use Rattle.aegis_pages.specs.Commits.{HasHonestHeader, HasOneCommitment, IsHonest, IsLeftByCommit, RecoversContentsUnlessOtherJournal, RecoversOneUnlessOtherJournal, commitment};
ghost use Rattle.aegis_pages.specs.Layouts.{IsHeader, header_block_bytes, max_contents_bytes, max_page_bytes, min_page_bytes, plaintext_header_bytes};
ghost use Rattle.aegis_pages.specs.OpenFile.{AreCommitted, HasCommitted, HasContents, IsStoredAs, IsUnchanged, OpenFile};

use crate::layout::{
    HEADER_BLOCK_BYTES, MAX_CONTENTS_BYTES, MAX_PAGE_BYTES, MIN_PAGE_BYTES, PLAINTEXT_HEADER_BYTES,
    TAG_BYTES,
};

/// A part that was written is what is read at its place.
#[tactic(auto, using(aegis_storage::proofs::Overwriting::put_part))]
pub fn written_is_read()
    ensures { (contents : List ℕ) (at : ℕ) (part : List ℕ)
        → part_at (overwritten contents at part) at (length part) ≡ part }
{}

/// Bytes that a part does not touch are read as before.
#[tactic(auto, using(crate::proofs::OpenFileFacts::kept_laws))]
pub fn others_are_kept()
    ensures before { (contents : List ℕ) (at : ℕ) (part : List ℕ) (place count : ℕ)
        → place + count ≤ at → place + count ≤ length contents
        → part_at (overwritten contents at part) place count ≡ part_at contents place count }
    ensures after { (contents : List ℕ) (at : ℕ) (part : List ℕ) (place count : ℕ)
        → at + length part ≤ place → place + count ≤ length contents
        → part_at (overwritten contents at part) place count ≡ part_at contents place count }
{}

/// A part that is written over all of the contents is the contents.
#[tactic(auto, using(aegis_storage::proofs::Overwriting::overwritten_whole))]
pub fn whole_is_written()
    ensures { (contents part : List ℕ) → length contents ≤ length part
        → overwritten contents 0 part ≡ part }
{}

/// A file has one commitment under a variant and a key: that of the file that was opened.
#[tactic(auto, using(crate::proofs::CommitmentFacts::has_commitment))]
pub fn opened_has_its_commitment()
    ensures { (variant : Variant) (key c : List ℕ) (file : OpenFile)
        → IsLaneCount variant.lanes
        → file.layout.variant ≡ variant → file.layout.key ≡ key
        → IfSome file.bytes (IsHeader file.layout file.counter file.stored)
        → IfSome file.bytes (λ now. c ≡ commitment file.layout file.counter file.stored now)
        → IfSome file.bytes (HasOneCommitment variant key c) }
{}

/// A file has as many bytes as its contents.
#[tactic(auto, unfolding(crate::specs::OpenFile::HasContents), using(crate::proofs::OpenFileFacts::has_len))]
pub fn contents_has_its_length()
    ensures { (file : OpenFile) (contents : List ℕ) → HasContents file contents
        → length contents ≡ file.len }
{}

/// Changes in memory leave the contents that are committed.
#[tactic(auto, using(crate::proofs::RecoveryFacts::stored_committed))]
pub fn stored_is_committed()
    ensures stored { (old new : OpenFile) (contents : List ℕ) → IsStoredAs old new
        → HasCommitted old contents → HasCommitted new contents }
    ensures unchanged { (old new : OpenFile) (contents : List ℕ) → IsUnchanged old new
        → HasCommitted old contents → HasCommitted new contents }
{}

/// Contents that are recovered before a crash are recovered after it.
pub fn recovers_after_a_crash()
    ensures { (variant : Variant) (key before now : List ℕ) (storage journal : Option Disk)
        (disk journal_disk : Disk) (ys js : List ℕ)
        → RecoversContentsUnlessOtherJournal variant key before now storage journal
        → storage ≡ Some disk → journal ≡ Some journal_disk
        → Crashed disk ys → Crashed journal_disk js
        → RecoversContentsUnlessOtherJournal variant key before now (Some (certain ys))
        (Some (certain js)) }
{}

/// Committed contents are committed after a crash.
#[tactic(auto, using(crate::proofs::RecoveryFacts::crashed_committed))]
pub fn committed_after_a_crash()
    ensures { (variant : Variant) (key contents : List ℕ) (disk journal_disk : Disk)
        (ys js : List ℕ)
        → AreCommitted variant key (Some disk) (Some journal_disk) contents
        → Crashed disk ys → Crashed journal_disk js
        → AreCommitted variant key (Some (certain ys)) (Some (certain js)) contents }
{}

/// What is recovered, with no forged header and no other whole journal, is left by a commit: `Pages::open` accepts it.
#[tactic(auto, unfolding(crate::specs::Commits::IsLeftByCommit))]
pub fn recovered_is_left_by_a_commit()
    ensures { (variant : Variant) (key before now : List ℕ) (bytes content : Option (List ℕ))
        (storage journal : Option Disk)
        → (batch : RecoversContentsUnlessOtherJournal variant key before now storage journal)
        → IfSome content (IsHonest batch) → IfSome bytes (HasHonestHeader batch)
        → IsLeftByCommit variant key bytes content storage journal }
{}

/// Committed contents are recovered, whatever was to come next.
#[tactic(auto, unfolding(crate::specs::Commits::RecoversUnder), using(crate::proofs::RecoveryFacts::committed_recovers))]
pub fn committed_recovers()
    ensures { (file : OpenFile) (before now : List ℕ) → HasCommitted file before
        → RecoversOneUnlessOtherJournal file before now }
{}

/// What a crash may leave, by its parts, as `open` takes it.
#[tactic(auto, unfolding(crate::specs::Commits::RecoversUnder))]
pub fn recovers_contents()
    ensures { (file : OpenFile) (before now : List ℕ)
        → RecoversOneUnlessOtherJournal file before now
        → RecoversContentsUnlessOtherJournal file.layout.variant file.layout.key before now
        file.disk file.journal }
{}

/// The limits, and the lengths of a header's parts, are those of the definitions.
pub fn page_limits()
    ensures least { MIN_PAGE_BYTES ≡ min_page_bytes }
    ensures most { MAX_PAGE_BYTES ≡ max_page_bytes }
    ensures contents { MAX_CONTENTS_BYTES ≡ max_contents_bytes }
    ensures header_block { HEADER_BLOCK_BYTES ≡ header_block_bytes }
    ensures plaintext_header { PLAINTEXT_HEADER_BYTES ≡ plaintext_header_bytes }
    ensures tag { TAG_BYTES ≡ long_tag_bytes }
{
    let (_least, _most, _contents) = (MIN_PAGE_BYTES, MAX_PAGE_BYTES, MAX_CONTENTS_BYTES);
    let (_header_block, _plaintext_header, _tag) = (
        HEADER_BLOCK_BYTES,
        PLAINTEXT_HEADER_BYTES,
        TAG_BYTES,
    );
}
