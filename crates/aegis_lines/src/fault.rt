//! The faults of lines.

ghost use Rattle.std.specs.Prelude.{◌≡◌};
ghost use Rattle.aegis_lines.specs.Answer.{earlier, order_of, text_of_fault};

/// The faults of a line, in the order in which they are looked for: each in all fields of the line before the next one.
#[derive(Clone, Copy, Debug)]
pub enum Fault {
    /// The first field is not a command.
    Command,
    /// The command has another number of fields.
    Fields,
    /// No variant has this name.
    Variant,
    /// The length of a tag is neither 16 nor 32.
    Tag,
    /// A field of bytes is neither `-` nor pairs of hexadecimal digits.
    Hex,
    /// The length of a field's bytes, or the length that a field gives, is not allowed.
    Length,
}

impl Fault {
    /// Returns the answer to a line with this fault.
    pub fn text(self) -> &'static [u8]
        ensures { result.now ≡ text_of_fault self }
    {
        match self {
            Fault::Command => b"error command",
            Fault::Fields => b"error fields",
            Fault::Variant => b"error variant",
            Fault::Tag => b"error tag",
            Fault::Hex => b"error hex",
            Fault::Length => b"error length",
        }
    }

    // The place in the order in which faults are looked for.
    fn order(self) -> u8
        ensures { result ≡ order_of self }
    {
        match self {
            Fault::Command => 0,
            Fault::Fields => 1,
            Fault::Variant => 2,
            Fault::Tag => 3,
            Fault::Hex => 4,
            Fault::Length => 5,
        }
    }
}

/// Returns the one of two faults that is looked for first.
pub fn earlier(a: Option<Fault>, b: Option<Fault>) -> Option<Fault>
    ensures { result ≡ earlier a b }
{
    match (a, b) {
        (None, fault) => fault,
        (Some(a), Some(b)) if a.order() > b.order() => Some(b),
        (fault, _) => fault,
    }
}
