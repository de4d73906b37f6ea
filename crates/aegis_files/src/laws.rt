//! Laws of sealed files: functions that do nothing, and whose contracts are facts about the definitions that the other
//! contracts cite.

ghost use Rattle.std.specs.Prelude.{◌≡◌, ◌+◌, ◌*◌, ◌<◌, ◌≤◌, ◌∷◌, ◌++◌, [], List, Option, length, ℕ};
ghost use Rattle.std.specs.List.{AllByRecursion, concat};
ghost use Rattle.aegis.specs.RecordStream.{first_position, header, prefix_bytes, record_overhead};
ghost use Rattle.aegis.specs.declared.record.version.Version.TheVariants.{Second};
ghost use Rattle.aegis.specs.declared.record.error.RecordError.TheVariants.{Damaged};
ghost use Rattle.aegis_files.specs.Opening.{IsSealedFile, RefusesFile, StopsRange, piece_bytes, pieces_in, pieces_of};

use crate::error::FileError;
use crate::open::{BEGINNING_BYTES, FIRST};
use crate::range::ContentsRange;
use crate::seal::PIECE_BYTES;

/// Under one key and context, a sealed file has at most one plaintext, and one list of messages. No sealed file is a
/// proper prefix of another.
pub fn one_contents()
    ensures one { (key context file a b : List ℕ)
        → IsSealedFile key context a file → IsSealedFile key context b file → a ≡ b }
    ensures pieces { (key context file a b : List ℕ)
        → (x : IsSealedFile key context a file) → (y : IsSealedFile key context b file)
        → x.is.messages ≡ y.is.messages }
    ensures whole { (key context file rest a b : List ℕ)
        → IsSealedFile key context a file → IsSealedFile key context b (file ++ rest) → rest ≡ [] }
{}

/// The number that `Damaged` has is bounded by the length of the file: it has at least 37 bytes for this record and
/// for each one before it. If opening began at a position, it is that record or a later one, and the bytes from the
/// position on are at least 37 for each.
pub fn damaged_record()
    ensures file { (key context file : List ℕ) (e : FileError) (k : ℕ)
        → RefusesFile key context file e → e ≡ FileError.Stream (Damaged k)
        → prefix_bytes + 4 + record_overhead * (k + 1) ≤ length file }
    ensures range { (key prefix context : List ℕ) (range : ContentsRange) (stream : List ℕ)
        (old new : Option (List ℕ)) (e : FileError) (k : ℕ)
        → StopsRange key prefix context range stream old new e
        → e ≡ FileError.Stream (Damaged k)
        → (range.position.number ≤ k)
        × (record_overhead * (k + 1)
        ≤ record_overhead * range.position.number + length stream) }
{}

/// The length of what a file has in front of its first record, and the position of that, are those of the definitions.
pub fn first_record()
    ensures beginning { BEGINNING_BYTES ≡ prefix_bytes + length (header Second) }
    ensures position { FIRST ≡ first_position Second }
{
    let (_beginning, _position) = (BEGINNING_BYTES, FIRST);
}

/// The pieces of contents, one after the other, are the contents. Each has 65,536 bytes, but the last one, which has at
/// least one.
pub fn pieces_of_contents()
    ensures bytes { PIECE_BYTES ≡ piece_bytes }
    ensures joined { (contents : List ℕ) → concat (pieces_of contents) ≡ contents }
    ensures count { (contents : List ℕ)
        → length (pieces_of contents) ≡ pieces_in (length contents) }
    ensures within { (contents : List ℕ) → AllByRecursion
        (λ piece. (0 < length piece) × (length piece ≤ piece_bytes)) (pieces_of contents) }
    ensures full { (contents : List ℕ) (pieces : List (List ℕ)) (last : List ℕ)
        → pieces_of contents ≡ pieces ++ last ∷ []
        → AllByRecursion (λ piece. length piece ≡ piece_bytes) pieces }
{
    let _bytes = PIECE_BYTES;
}
