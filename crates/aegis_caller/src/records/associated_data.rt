//! The associated data of the second record of a stream, and the last one, whose context is empty.

ghost use Rattle.std.specs.Prelude.{◌≡◌, ◌∷◌, []};
ghost use Rattle.aegis.specs.RecordStream.{record_associated_data};
ghost use Rattle.aegis.specs.declared.record.version.Version.TheVariants.{First, Second};

/// In the first version it has 13 bytes: the header, the record's number and its flag. In the second version it has 21:
/// also how many bytes the messages before it have, here 3.
pub fn of_the_second_record()
    ensures first { record_associated_data (record { version = First; number = 1; before = 3 }) 1 []
        ≡ 0x41 ∷ 0x47 ∷ 0x52 ∷ 0x31
        ∷ 1 ∷ 0 ∷ 0 ∷ 0 ∷ 0 ∷ 0 ∷ 0 ∷ 0 ∷ 1 ∷ [] }
    ensures second { record_associated_data
        (record { version = Second; number = 1; before = 3 }) 1 []
        ≡ 0x41 ∷ 0x47 ∷ 0x52 ∷ 0x32
        ∷ 1 ∷ 0 ∷ 0 ∷ 0 ∷ 0 ∷ 0 ∷ 0 ∷ 0 ∷ 3 ∷ 0 ∷ 0 ∷ 0 ∷ 0 ∷ 0 ∷ 0 ∷ 0 ∷ 1 ∷ [] }
{}
