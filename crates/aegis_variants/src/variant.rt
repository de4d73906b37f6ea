//! The six variants and the two lengths of tags.

ghost use Rattle.std.specs.Prelude.{◌≡◌, ◌≤◌};
ghost use Rattle.aegis_base.specs.Variant.{module_name, rate};
ghost use Rattle.aegis_variants.specs.Cipher.{standard_of, tag_length_of};

/// A variant of AEGIS.
#[derive(Clone, Copy, Debug)]
pub enum AnyVariant {
    Aegis128L,
    Aegis128X2,
    Aegis128X4,
    Aegis256,
    Aegis256X2,
    Aegis256X4,
}

/// All variants.
pub const VARIANTS: [AnyVariant; 6] = [
    AnyVariant::Aegis128L,
    AnyVariant::Aegis128X2,
    AnyVariant::Aegis128X4,
    AnyVariant::Aegis256,
    AnyVariant::Aegis256X2,
    AnyVariant::Aegis256X4,
];

impl AnyVariant {
    /// Returns the name of the variant's module.
    pub fn name(self) -> &'static str
        ensures { result.now ≡ module_name (standard_of self).family (standard_of self).lanes }
    {
        match self {
            AnyVariant::Aegis128L => "aegis128l",
            AnyVariant::Aegis128X2 => "aegis128x2",
            AnyVariant::Aegis128X4 => "aegis128x4",
            AnyVariant::Aegis256 => "aegis256",
            AnyVariant::Aegis256X2 => "aegis256x2",
            AnyVariant::Aegis256X4 => "aegis256x4",
        }
    }

    /// Returns the length of a rate block in bytes, which all lanes together take in by one update.
    pub fn rate(self) -> usize
        ensures rate { result ≡ rate (standard_of self) }
        ensures least { 16 ≤ result }
        ensures most { result ≤ 128 }
    {
        match self {
            AnyVariant::Aegis128L => 32,
            AnyVariant::Aegis128X2 => 64,
            AnyVariant::Aegis128X4 => 128,
            AnyVariant::Aegis256 => 16,
            AnyVariant::Aegis256X2 => 32,
            AnyVariant::Aegis256X4 => 64,
        }
    }
}

/// The length of a tag.
#[derive(Clone, Copy, Debug)]
pub enum TagLength {
    /// 16 bytes.
    Short,
    /// 32 bytes.
    Long,
}

/// Both lengths.
pub const TAG_LENGTHS: [TagLength; 2] = [TagLength::Short, TagLength::Long];

impl TagLength {
    /// Returns the length of a tag in bytes.
    pub fn bytes(self) -> usize
        ensures { result ≡ tag_length_of self }
    {
        match self {
            TagLength::Short => 16,
            TagLength::Long => 32,
        }
    }
}
