//! Why a commit fails: what a caller knows of an error, from the errors of the storages and of the source of nonces.

ghost use Rattle.std.specs.Prelude.{◌≡◌, ◌≢◌, ◌+◌, ◌≤◌, ◌⊎◌, [], Err, IfErr, OnOk, length, true};
ghost use Rattle.std.specs.IoError.{error_kind};
ghost use Rattle.std.specs.declared.io.Error.{Error};
ghost use Rattle.std.specs.declared.io.ErrorKind.{ErrorKind};

use aegis::aegis128l::Key;
use aegis_pages::{Nonces, PagesError, SealedPages};
use aegis_storage::{
    BEGINNING_BYTES, MAX_STORAGE_BYTES, NONCE_BYTES, PendingWrite, Storage, commit, recover,
};
use std::alloc::Allocator;
use std::io;

/// Nonces that count up from one that is drawn once. After 2^64 of them they come again.
#[derive(Drop)]
pub struct CountedNonces {
    pub next: u64,
}

impl Nonces for CountedNonces {
    ghost errors = { λ _. ⊥ };

    fn draw(&mut self, nonce: &mut [u8]) -> io::Result<()> {
        nonce.fill(0);
        for (byte, counted) in nonce.iter_mut().zip(self.next.to_le_bytes().iter()) {
            *byte = *counted;
        }
        self.next = self.next.wrapping_add(1);
        Ok(())
    }
}

/// Commits a file whose nonces are counted. It never fails for want of a nonce.
pub fn commit_counted<S: Storage + Drop, J: Storage + Drop, A: Allocator + Copy>(
    pages: &mut SealedPages<S, J, CountedNonces, A>,
) -> Result<(), PagesError>
    ensures { (error : Error) → result ≢ Err (PagesError.Nonce error) }
{
    pages.commit()
}

/// Commits twice: the counter in the header is then greater by two.
pub fn commit_twice<S: Storage + Drop, J: Storage + Drop, N: Nonces + Drop, A: Allocator + Copy>(
    pages: &mut SealedPages<S, J, N, A>,
) -> Result<(), PagesError>
    ensures { OnOk result (pages.new.counter ≡ pages.old.counter + 2) }
{
    pages.commit()?;
    pages.commit()
}

/// Takes the commitment of a file, and compares it again: a broken file has none.
pub fn commitment_again<
    S: Storage + Drop,
    J: Storage + Drop,
    N: Nonces + Drop,
    A: Allocator + Copy,
>(pages: &SealedPages<S, J, N, A>) -> Result<(), PagesError>
    ensures { pages.now.broken ≡ true → result ≡ Err PagesError.Broken }
{
    let commitment = pages.commitment()?;
    pages.verify(&commitment)
}

/// Makes writes in a vector by way of an empty journal in another one. Memory may run out, or the journal be too long.
pub fn commit_in_memory<A: Allocator + Copy>(
    alloc: A,
    storage: &mut Vec<u8, A>,
    journal: &mut Vec<u8, A>,
    key: &Key,
    beginning: &[u8; BEGINNING_BYTES],
    nonce: &[u8; NONCE_BYTES],
    writes: &[PendingWrite<A>],
) -> io::Result<()>
    requires { length journal.old.items ≡ 0 }
    ensures { IfErr result (λ error.
        (error_kind error ≡ ErrorKind.OutOfMemory) ⊎ (error_kind error ≡ ErrorKind.InvalidInput)) }
{
    commit(alloc, storage, journal, key, beginning, nonce, &[], writes)
}

/// Recovers a vector by its journal, which is not too long to be read. Only memory may run out.
pub fn recover_in_memory<A: Allocator + Copy>(
    alloc: A,
    storage: &mut Vec<u8, A>,
    journal: &mut Vec<u8, A>,
    key: &Key,
) -> io::Result<()>
    requires { length journal.old.items ≤ MAX_STORAGE_BYTES }
    ensures { IfErr result (λ error. error_kind error ≡ ErrorKind.OutOfMemory) }
{
    recover(alloc, storage, journal, key, &[])
}
