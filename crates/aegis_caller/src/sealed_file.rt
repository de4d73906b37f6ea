//! Sealed files in memory.

ghost use Rattle.std.specs.Prelude.{◌≡◌, ◌+◌, ◌*◌, ◌<◌, ◌≤◌, ◌⊎◌, Err, IfErr, IfOk, List, length, ℕ};
ghost use Rattle.aegis_base.specs.declared.error.TheConstants.{MAX_AEAD_BYTES};
ghost use Rattle.aegis.specs.RecordStream.{IsFaultAt, first_position, header, position_after, prefix_bytes, sealed, start_at};
ghost use Rattle.aegis_files.specs.Opening.{AreContentsFrom, AreFrom, IsFileInPieces, IsFileWithPrefix, IsSealedFile, part_of, part_of_contents, pieces_in};
ghost use Rattle.aegis.specs.declared.record.error.RecordError.{RecordError};
ghost use Rattle.aegis.specs.declared.record.version.Version.TheVariants.{Second};

use aegis::aegis256::Key;
use aegis::record::{MAX_CONTEXT_BYTES, RecordError, RecordPosition};
use aegis_files::laws::{damaged_record, first_record, one_contents};
use aegis_files::{
    BEGINNING_BYTES, ContentsRange, FIRST, FileError, open_range, open_stream, rekey_stream,
    seal_stream,
};
use std::alloc::Allocator;

/// Seals contents, and returns the file: it has 65 bytes more than the contents, and 37 for each piece of 65,536 bytes.
/// No error names a fault of the stream.
pub fn seal_contents<A: Allocator + Copy>(
    alloc: A,
    key: &Key,
    prefix: &[u8; 24],
    context: &[u8],
    contents: &[u8],
) -> Result<Vec<u8, A>, FileError>
    requires { length context.now ≤ MAX_CONTEXT_BYTES }
    ensures sealed { IfOk result
        (λ file. IsFileInPieces key.now prefix.now context.now contents.now file.items) }
    ensures opens { IfOk result
        (λ file. IsSealedFile key.now context.now contents.now file.items) }
    ensures size { IfOk result (λ file. length file.items
        ≡ 65 + 37 * pieces_in (length contents.now) + length contents.now) }
    ensures memory { (why : RecordError) → result ≡ Err (FileError.Stream why)
        → why ≡ RecordError.OutOfMemory }
{
    let mut file = Vec::new(alloc);
    let mut input = contents;
    seal_stream(alloc, key, prefix, context, &mut input, &mut file)?;
    Ok(file)
}

/// Opens a file, and returns its contents. The stream of an intact file is rejected only if memory runs out.
pub fn open_contents<A: Allocator + Copy>(
    alloc: A,
    key: &Key,
    context: &[u8],
    file: &[u8],
) -> Result<Vec<u8, A>, FileError>
    requires { length context.now ≤ MAX_CONTEXT_BYTES }
    ensures opened { IfOk result
        (λ contents. IsSealedFile key.now context.now contents.items file.now) }
    ensures accepted { IfErr result (λ e. (contents : List ℕ)
        → IsSealedFile key.now context.now contents file.now
        → (why : RecordError) → e ≡ FileError.Stream why → why ≡ RecordError.OutOfMemory) }
{
    let mut contents = Vec::new(alloc);
    let mut input = file;
    open_stream(alloc, key, context, &mut input, &mut contents)?;
    Ok(contents)
}

/// Opens a file, and returns its contents. A record that is named as damaged is one that a file of this length has room
/// for.
pub fn open_or_name_damage<A: Allocator + Copy>(
    alloc: A,
    key: &Key,
    context: &[u8],
    file: &[u8],
) -> Result<Vec<u8, A>, FileError>
    requires { length context.now ≤ MAX_CONTEXT_BYTES }
    ensures { (number : ℕ) → result ≡ Err (FileError.Stream (RecordError.Damaged number))
        → 28 + 37 * (number + 1) ≤ length file.now }
{
    damaged_record();
    let mut contents = Vec::new(alloc);
    let mut input = file;
    open_stream(alloc, key, context, &mut input, &mut contents)?;
    Ok(contents)
}

/// Seals contents, and opens the file again. That returns the contents, since the file has no others.
pub fn sealed_and_opened<A: Allocator + Copy>(
    alloc: A,
    key: &Key,
    prefix: &[u8; 24],
    context: &[u8],
    contents: &[u8],
) -> Result<Vec<u8, A>, FileError>
    requires { length context.now ≤ MAX_CONTEXT_BYTES }
    ensures { IfOk result (λ opened. opened.items ≡ contents.now) }
{
    one_contents();
    let file = seal_contents(alloc, key, prefix, context, contents)?;
    open_contents(alloc, key, context, &file)
}

/// Returns the place of a file's first record, and its position. From there [`open_part`] opens a part at the
/// beginning.
pub fn first_place() -> (usize, RecordPosition)
    ensures place { result.0 ≡ prefix_bytes + length (header Second) }
    ensures position { result.1 ≡ first_position Second }
{
    first_record();
    (BEGINNING_BYTES, FIRST)
}

/// Opens a part of the contents, and returns it: `records` are the bytes of the file from the record at the part's
/// position on. They begin with at least one record that is sealed at that position, and the part is that of these
/// records' messages. If they are those of a sealed file, it is that part of its contents, and opening fails only if
/// memory runs out.
pub fn open_part<A: Allocator + Copy>(
    alloc: A,
    key: &Key,
    prefix: &[u8; 24],
    context: &[u8],
    range: ContentsRange,
    records: &[u8],
) -> Result<Vec<u8, A>, FileError>
    requires context_within { length context.now ≤ MAX_CONTEXT_BYTES }
    requires version { range.position.version ≡ Second }
    requires start_within { start_at range.position ≤ MAX_AEAD_BYTES }
    ensures opened { IfOk result (λ part. (flag : ℕ) × (messages : List (List ℕ))
        × (rest : List ℕ) × (0 < length messages)
        × AreFrom key.now prefix.now context.now range.position flag messages rest records.now
        × (part.items ≡ part_of range messages)
        × ((following : List (List ℕ)) (contents : List ℕ)
        → AreContentsFrom key.now prefix.now context.now range.position following contents
        records.now
        → part_of range messages ≡ part_of_contents range contents)) }
    ensures accepted { IfErr result (λ e. (following : List (List ℕ)) (contents : List ℕ)
        → AreContentsFrom key.now prefix.now context.now range.position following contents
        records.now
        → (why : RecordError) → e ≡ FileError.Stream why → why ≡ RecordError.OutOfMemory) }
{
    let mut part = Vec::new(alloc);
    let mut input = records;
    open_range(alloc, key, prefix, context, range, &mut input, &mut part)?;
    Ok(part)
}

/// Opens a part of the contents. The error names the fault of the record after those that were opened, if memory did
/// not run out. A record that is named as damaged is that of the position or a later one, within `records`.
pub fn open_part_or_fault<A: Allocator + Copy>(
    alloc: A,
    key: &Key,
    prefix: &[u8; 24],
    context: &[u8],
    range: ContentsRange,
    records: &[u8],
) -> Result<Vec<u8, A>, FileError>
    requires context_within { length context.now ≤ MAX_CONTEXT_BYTES }
    requires version { range.position.version ≡ Second }
    requires start_within { start_at range.position ≤ MAX_AEAD_BYTES }
    ensures fault { IfErr result (λ e. (messages : List (List ℕ)) × (rest : List ℕ)
        × ((why : RecordError) → e ≡ FileError.Stream why → (why ≡ RecordError.OutOfMemory)
        ⊎ IsFaultAt (sealed key.now prefix.now context.now)
        (position_after range.position messages) rest why)) }
    ensures damaged { (number : ℕ) → result ≡ Err (FileError.Stream (RecordError.Damaged number))
        → (range.position.number ≤ number)
        × (37 * (number + 1) ≤ 37 * range.position.number + length records.now) }
{
    damaged_record();
    let mut part = Vec::new(alloc);
    let mut input = records;
    open_range(alloc, key, prefix, context, range, &mut input, &mut part)?;
    Ok(part)
}

/// Seals the contents of a file anew under another key and a new prefix, and returns the new file, which has the same
/// length. The stream of an intact file is rejected only if memory runs out.
pub fn rekey_file<A: Allocator + Copy>(
    alloc: A,
    key: &Key,
    new_key: &Key,
    prefix: &[u8; 24],
    context: &[u8],
    file: &[u8],
) -> Result<Vec<u8, A>, FileError>
    requires { length context.now ≤ MAX_CONTEXT_BYTES }
    ensures rekeyed { IfOk result (λ new_file. (contents : List ℕ)
        × IsSealedFile key.now context.now contents file.now
        × IsFileWithPrefix new_key.now prefix.now context.now contents new_file.items) }
    ensures size { IfOk result (λ new_file. length new_file.items ≡ length file.now) }
    ensures accepted { IfErr result (λ e. (contents : List ℕ)
        → IsSealedFile key.now context.now contents file.now
        → (why : RecordError) → e ≡ FileError.Stream why → why ≡ RecordError.OutOfMemory) }
{
    let mut new_file = Vec::new(alloc);
    let mut input = file;
    rekey_stream(
        alloc,
        key,
        new_key,
        prefix,
        context,
        &mut input,
        &mut new_file,
    )?;
    Ok(new_file)
}
