//! Why a call is refused, and the code that C has for it.

ghost use Rattle.std.specs.Prelude.{◌≡◌};
ghost use Rattle.aegis_c_calls.specs.Private.{code_of};
ghost use Rattle.aegis_c_calls.specs.Codes.{number_of};

/// Why a call is refused. After each but [`Refusal::InvalidTag`] nothing has changed.
#[derive(Clone, Copy)]
pub enum Refusal {
    /// The tag is not that of the message, the MAC not that of the input, or the bytes no record, page or header.
    InvalidTag,
    /// The nonce does not have the variant's length.
    WrongNonceLength,
    /// The key does not have the variant's length.
    WrongKeyLength,
    /// The message or the input has more than `MAX_AEAD_BYTES` bytes, or a record or its stream is past its limit.
    MessageTooLong,
    /// The associated data has more than `MAX_AEAD_BYTES` bytes.
    DataTooLong,
    /// The tag has neither 16 nor 32 bytes.
    WrongTagLength,
    /// The state lacks the mark, has the number of no variant, another role, or a count past its limit. A state that
    /// has ended is one of these; one that C has changed need not be.
    WrongState,
    /// No variant has this number.
    WrongVariant,
    /// The context of a record stream has more than `MAX_CONTEXT_BYTES` bytes.
    ContextTooLong,
    /// The bytes are not the header of version 2 of record streams.
    UnknownHeader,
    /// A record has no room for its head and its tag.
    WrongRecordLength,
    /// A page has fewer bytes than a page may have, or more.
    WrongPageSize,
    /// The contents of a file have more than `MAX_CONTENTS_BYTES` bytes, or a page begins after so many.
    FileTooLong,
    /// A message has not as many bytes as were decrypted.
    WrongMessageLength,
    /// A journal is that of another file, or of another state of this one.
    WrongJournal,
    /// The bytes of a journal begin with no write.
    NoWrite,
}

// Returns the code of a refusal.
fn number(refusal: Refusal) -> i32
    ensures { result ≡ number_of refusal }
{
    match refusal {
        Refusal::InvalidTag => -1,
        Refusal::WrongNonceLength => -2,
        Refusal::WrongKeyLength => -3,
        Refusal::MessageTooLong => -4,
        Refusal::DataTooLong => -5,
        Refusal::WrongTagLength => -6,
        Refusal::WrongState => -7,
        Refusal::WrongVariant => -8,
        Refusal::ContextTooLong => -9,
        Refusal::UnknownHeader => -10,
        Refusal::WrongRecordLength => -11,
        Refusal::WrongPageSize => -12,
        Refusal::FileTooLong => -13,
        Refusal::WrongMessageLength => -14,
        Refusal::WrongJournal => -15,
        Refusal::NoWrite => -22,
    }
}

/// Returns the code of a call.
pub fn code(outcome: Result<(), Refusal>) -> i32
    ensures { result ≡ code_of outcome }
{
    match outcome {
        Ok(()) => 0,
        Err(refusal) => number(refusal),
    }
}
