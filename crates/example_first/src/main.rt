#![tactic(auto)]

use aegis::aegis256::Aegis256;
use std::fs::File;
use std::io;
use std::io::Read;

fn main(rt: HostRuntime) -> io::Result<()> {
    let (mut key, mut nonce) = ([0; 32], [0; 32]);
    let mut random = File::open(&rt, "/dev/urandom")?;
    random.read_exact(&mut key)?;
    random.read_exact(&mut nonce)?; // another one for each message

    let mut buffer = *b"a message";
    let tag = Aegis256::<32>::new(&key, &nonce).encrypt_in_place(&mut buffer, b"header");
    let opened = Aegis256::new(&key, &nonce).decrypt_in_place(&mut buffer, &tag, b"header");
    println!(rt; "opened: {}", opened.is_ok())
}
