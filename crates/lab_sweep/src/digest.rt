ghost use Rattle.std.specs.Prelude.{◌≡◌, IfOk};
ghost use Rattle.lab_sweep.specs.SeedLine.{digest_digits};

use hex::encode_to_slice;
use indexmap::IndexMap;
use lab_sector::NoMemory;
use sha2::{Digest, Sha256};
use std::alloc::Global;
use std::marker::Model;

/// Texts that came before, with their digests, so that a text that comes again isn't digested again.
#[derive(Drop)]
pub(crate) struct Digests {
    /// The digest of each text.
    known: IndexMap<Vec<u8>, [u8; 16]>,
}

impl Model for Digests {
    ghost use Rattle.std.specs.Prelude.{◌≡◌, All};
    ghost use Rattle.lab_sweep.specs.SeedLine.{digest_digits};

    ghost Value = { Unit {0} };

    ghost view = { λ digests. tt };

    ghost invariant = { λ digests.
        All (λ entry. entry.1 ≡ digest_digits entry.0.items) digests.known.entries };
}

impl Digests {
    /// No text came before.
    pub(crate) fn new(alloc: Global) -> Digests {
        Digests {
            known: IndexMap::new(alloc),
        }
    }

    /// The first 16 hexadecimal digits of a text's SHA-256.
    pub(crate) fn digest_of(&mut self, text: Vec<u8>) -> Result<[u8; 16], NoMemory>
        ensures { IfOk result (λ digest. digest ≡ digest_digits text.items) }
    {
        if let Some(digest) = self.known.get(text.as_slice()) {
            return Ok(*digest);
        }
        let digest = digest_anew(&text);
        self.keep(text, digest)?;
        Ok(digest)
    }

    /// Keeps a text with its digest, if it is short and few are kept: so they take some two mebibytes at most.
    fn keep(&mut self, text: Vec<u8>, digest: [u8; 16]) -> Result<(), NoMemory>
        requires { digest ≡ digest_digits text.items }
    {
        if text.len() <= 4096 && self.known.len() < 256 {
            self.known.insert(text, digest)?;
        }
        Ok(())
    }
}

/// The first 16 hexadecimal digits of a text's SHA-256.
fn digest_anew(text: &[u8]) -> [u8; 16]
    ensures { result ≡ digest_digits text.now }
{
    let digest = Sha256::digest(text);
    let mut digits = [0; 16];
    let Ok(()) = encode_to_slice(&digest[..8], &mut digits) else {
        unreachable!();
    };
    digits
}
