ghost use Rattle.std.specs.Prelude.{◌≡◌, ℕ, ◌<◌, ◌++◌, List, IfOk, IfSome, OnErr, OnOk, length, replicate};
ghost use Rattle.std.specs.Prelude.{slice_index, slice_set};
ghost use Rattle.lab_text.specs.Runs.{runs_list};
ghost use Rattle.lab_disk.specs.Bytes.{bytes_of, same_in};

use lab_sector::NoMemory;
use lab_text::Runs;
use std::alloc::Global;
use std::marker::Model;
use std::sync::Arc;

/// What is kept of a sector's bytes.
#[derive(Debug, Drop)]
enum Kept {
    /// All bytes are this one.
    Same(u8),
    /// Each has a place of its own, which sectors of the same bytes may share.
    Each(Arc<[u8; 512]>),
}

/// A sector, which its callers see as the list of its 512 bytes.
///
/// Where all of them were given as one byte, that byte is all that it keeps.
#[derive(Debug, Drop)]
pub struct Sector {
    /// Its bytes.
    kept: Kept,
}

impl Kept {
    /// The byte that all of them are, where it is kept so.
    #[inline]
    fn same(&self) -> Option<u8>
        ensures { result ≡ same_in self.now }
    {
        match self {
            Kept::Same(byte) => Some(*byte),
            Kept::Each(_) => None,
        }
    }

    /// All bytes.
    #[inline]
    fn bytes(&self) -> [u8; 512]
        ensures { result ≡ bytes_of self.now }
    {
        match self {
            Kept::Same(byte) => [*byte; 512],
            Kept::Each(bytes) => **bytes,
        }
    }
}

impl Model for Sector {
    ghost use Rattle.std.specs.Prelude.{List, ℕ, ◌≡◌, length};

    ghost Value = { List ℕ };

    ghost use Rattle.lab_disk.specs.Bytes.{bytes_of};

    ghost view = { λ sector. bytes_of sector.kept };

    ghost invariant = { λ sector. length (bytes_of sector.kept) ≡ 512 };
}

impl Sector {
    /// This byte 512 times, which takes no memory.
    #[inline]
    pub fn of(byte: u8) -> Sector
        ensures { result ≡ replicate 512 byte }
    {
        Sector {
            kept: Kept::Same(byte),
        }
    }

    /// These bytes, each at a place of its own.
    #[inline]
    pub fn of_bytes(alloc: Global, bytes: &[u8]) -> Result<Sector, NoMemory>
        requires { length bytes.now ≡ 512 }
        ensures { IfOk result (λ sector. sector ≡ bytes.now) }
    {
        let mut own = [0; 512];
        own.copy_from_slice(bytes);
        let kept = Kept::Each(Arc::new(alloc, own)?);
        Ok(Sector { kept })
    }

    /// How many bytes it has: 512.
    #[inline]
    pub fn len(&self) -> usize
        ensures len { result ≡ length self.now }
        ensures full { length self.now ≡ 512 }
    {
        let _kept = &self.kept;
        512
    }

    /// The byte that all of its bytes are, where it is kept so.
    #[inline]
    pub fn fill(&self) -> Option<u8>
        ensures same { IfSome result (λ byte. self.now ≡ replicate 512 byte) }
        ensures full { length self.now ≡ 512 }
    {
        self.kept.same()
    }

    /// The byte at a place, counted from 0.
    #[inline]
    pub fn byte(&self, place: usize) -> u8
        requires { place < 512 }
        ensures byte { result ≡ slice_index self.now place }
        ensures full { length self.now ≡ 512 }
    {
        match &self.kept {
            Kept::Same(byte) => *byte,
            Kept::Each(bytes) => bytes[place],
        }
    }

    /// The same bytes once more. It takes no memory, and is refused where no number counts who shares them.
    #[inline]
    pub fn copy(&self) -> Result<Sector, NoMemory>
        ensures same { IfOk result (λ sector. sector ≡ self.now) }
        ensures full { length self.now ≡ 512 }
    {
        let kept = match &self.kept {
            Kept::Same(byte) => Kept::Same(*byte),
            Kept::Each(bytes) => Kept::Each(Arc::try_clone(bytes)?),
        };
        Ok(Sector { kept })
    }

    /// Another byte at a place. A refusal changes nothing.
    #[inline]
    pub fn set(&mut self, alloc: Global, place: usize, byte: u8) -> Result<(), NoMemory>
        requires { place < 512 }
        ensures ok { OnOk result (self.new ≡ slice_set self.old place byte) }
        ensures err { OnErr result (self.new ≡ self.old) }
        ensures full { length self.new ≡ 512 }
    {
        if self.byte(place) == byte {
            return Ok(());
        }
        let mut bytes = self.kept.bytes();
        bytes[place] = byte;
        self.kept = Kept::Each(Arc::new(alloc, bytes)?);
        Ok(())
    }

    /// Puts its bytes behind others.
    #[inline]
    pub fn push_to(&self, bytes: &mut Vec<u8>) -> Result<(), NoMemory>
        ensures bytes { OnOk result (bytes.new.items ≡ bytes.old.items ++ self.now) }
        ensures full { length self.now ≡ 512 }
    {
        match &self.kept {
            Kept::Same(byte) => bytes.extend_from_slice(&[*byte; 512])?,
            Kept::Each(own) => bytes.extend_from_slice(&**own)?,
        }
        Ok(())
    }

    /// Its bytes follow those of some runs.
    #[inline]
    pub fn push_runs_to(&self, runs: &mut Runs) -> Result<(), NoMemory>
        ensures { OnOk result ((before : List ℕ) → runs.old ≡ runs_list before
            → runs.new ≡ runs_list (before ++ self.now)) }
    {
        match &self.kept {
            Kept::Same(byte) => runs.push(512, *byte),
            Kept::Each(own) => runs.extend(&**own),
        }
    }
}
