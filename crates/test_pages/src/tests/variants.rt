//! A file of each variant is written, closed, opened and read. The other tests have AEGIS-256.

ghost use Rattle.std.specs.Prelude.{◌≡◌};
ghost use Rattle.aegis_base.specs.Variant.{key_length};

use super::{Counter, ID, KEY, SHORT_KEY, is_all};
use aegis_128::{State128X1, State128X2, State128X4};
use aegis_256::{State256X1, State256X2, State256X4};
use aegis_base::SavedLanes;
use aegis_pages::{Pages, PagesError};
use std::alloc::Global;
use std::test::Fail;

// A file that was written under a key, and its journal.
fn written<L: SavedLanes, const KEY_BYTES: usize>(
    alloc: Global,
    key: &[u8; KEY_BYTES],
) -> Result<(Vec<u8>, Vec<u8>), PagesError>
    requires { KEY_BYTES ≡ key_length L.VARIANT.family }
{
    let (file, journal): (Vec<u8>, Vec<u8>) = (Vec::new(alloc), Vec::new(alloc));
    let mut pages = Pages::<L, KEY_BYTES, _, _, _, _>::create(
        alloc,
        file,
        journal,
        Counter(0),
        key,
        &ID,
        300,
    )?;
    pages.write_at(100, &[5; 900])?;
    pages.commit()?;
    Ok(pages.into_storages())
}

// Whether what was written comes back.
fn comes_back<L: SavedLanes, const KEY_BYTES: usize>(
    alloc: Global,
    key: &[u8; KEY_BYTES],
) -> Result<bool, PagesError>
    requires { KEY_BYTES ≡ key_length L.VARIANT.family }
{
    let (file, journal) = written::<L, KEY_BYTES>(alloc, key)?;
    let mut pages = Pages::<L, KEY_BYTES, _, _, _, _>::open(alloc, file, journal, Counter(9), key)?;
    let mut out = [9; 900];
    Ok(pages.read_at(100, &mut out)? == 900 && is_all(&out, 5))
}

#[test]
fn written_bytes_come_back(rt: HostRuntime) -> Result<(), Fail> {
    let alloc = rt.alloc();
    assert!(rt; comes_back::<State128X1, 16>(alloc, &SHORT_KEY)?);
    assert!(rt; comes_back::<State128X2, 16>(alloc, &SHORT_KEY)?);
    assert!(rt; comes_back::<State128X4, 16>(alloc, &SHORT_KEY)?);
    assert!(rt; comes_back::<State256X1, 32>(alloc, &KEY)?);
    assert!(rt; comes_back::<State256X2, 32>(alloc, &KEY)?);
    assert!(rt; comes_back::<State256X4, 32>(alloc, &KEY)?);
    Ok(())
}
