//! Opens random-access files in memory. A line of standard input has a variant, a key, a file and its journal, in
//! hexadecimal. Its answer is `ok`, the contents and the commitment, or an error.
#![tactic(auto)]

ghost use Rattle.std.specs.Prelude.{◌≡◌};
ghost use Rattle.aegis_base.specs.Variant.{key_length};

use aegis_128::{State128X1, State128X2, State128X4};
use aegis_256::{State256X1, State256X2, State256X4};
use aegis_base::SavedLanes;
use aegis_pages::{Nonces, Pages};
use std::alloc::Global;
use std::io;
use std::io::{ErrorKind, Read};

/// No nonces: nothing is encrypted.
#[derive(Drop)]
struct NoNonces;

impl Nonces for NoNonces {
    fn draw(&mut self, nonce: &mut [u8]) -> io::Result<()> {
        nonce.fill(0);
        Err(io::Error::from(ErrorKind::Unsupported))
    }
}

// Opens a file and its journal. Returns the contents and the commitment, in hexadecimal.
fn opened<L: SavedLanes, const KEY_BYTES: usize>(
    alloc: Global,
    key: &[u8],
    file: &[u8],
    journal: &[u8],
) -> anyhow::Result<String>
    requires { KEY_BYTES ≡ key_length L.VARIANT.family }
{
    let mut own_key = [0; KEY_BYTES];
    hex::decode_to_slice(key, &mut own_key)?;
    let (file, journal) = (hex::decode(alloc, file)?, hex::decode(alloc, journal)?);
    let mut pages = Pages::<L, KEY_BYTES, _, _, _, _>::open(
        alloc, file, journal, NoNonces, &own_key,
    )?;
    let mut contents = Vec::new(alloc);
    contents.resize(usize::try_from(pages.len())?, 0)?;
    pages.read_at(0, &mut contents)?;
    let commitment = pages.commitment()?;
    let contents = hex::encode(alloc, &contents)?;
    let commitment = hex::encode(alloc, &commitment)?;
    Ok(format!(in alloc; "{contents} {commitment}")?)
}

// Opens the file of a line.
fn opened_line(alloc: Global, line: &[u8]) -> anyhow::Result<String> {
    let fields: Vec<&[u8]> = line.split(|byte| *byte == b' ').collect(alloc)?;
    if fields.len() != 4 {
        return Err(anyhow::anyhow!("not four fields"));
    }
    let (key, file, journal) = (fields[1], fields[2], fields[3]);
    if fields[0] == b"aegis128l".as_slice() {
        opened::<State128X1, 16>(alloc, key, file, journal)
    } else if fields[0] == b"aegis128x2".as_slice() {
        opened::<State128X2, 16>(alloc, key, file, journal)
    } else if fields[0] == b"aegis128x4".as_slice() {
        opened::<State128X4, 16>(alloc, key, file, journal)
    } else if fields[0] == b"aegis256".as_slice() {
        opened::<State256X1, 32>(alloc, key, file, journal)
    } else if fields[0] == b"aegis256x2".as_slice() {
        opened::<State256X2, 32>(alloc, key, file, journal)
    } else if fields[0] == b"aegis256x4".as_slice() {
        opened::<State256X4, 32>(alloc, key, file, journal)
    } else {
        Err(anyhow::anyhow!("no variant"))
    }
}

fn main(rt: HostRuntime) -> anyhow::Result<()> {
    let alloc = rt.alloc();
    let mut input = Vec::new(alloc);
    rt.stdin().read_to_end(&mut input)?;
    for line in input.split(|byte| *byte == b'\n') {
        match opened_line(alloc, line) {
            Ok(answer) => println!(rt; "ok {answer}")?,
            Err(error) => println!(rt; "{error}")?,
        }
    }
    Ok(())
}
