ghost use Rattle.std.specs.Prelude.{◌≡◌, MatchResult};
ghost use Rattle.std.specs.Io.{ReadsAtMost, WritesAtMost};
ghost use Rattle.std.specs.Io.KnownBytes.{Keeps, ReadConsumes, WriteAppends};
ghost use Rattle.dmlab_run.specs.Counting.{CountsCall, CountsFault, IsUncalled, counted_up, counted_write};

use std::io;
use std::io::{Read, Write};

/// A reader or a writer that counts its failures (errors, and writes that took no byte), its reads
/// and its writes. Each count stays at the greatest u64 once there.
#[derive(Debug, Drop)]
pub struct Counted<I> {
    /// The reader or the writer itself.
    inner: I,
    /// How often a call of it failed.
    pub failures: u64,
    /// How many reads or writes moved bytes.
    pub moved: u64,
    /// How many reads or writes moved no byte.
    pub none: u64,
    /// How many reads or writes came after one that moved no byte, or after a failure.
    pub late: u64,
    /// How many bytes the reads or writes moved.
    pub bytes: u64,
}

impl<I> Counted<I> {
    /// The reader or the writer, before any call.
    pub fn new(inner: I) -> Counted<I>
        ensures inner { result.inner ≡ inner }
        ensures uncalled { IsUncalled result }
    {
        Counted {
            inner,
            failures: 0,
            moved: 0,
            none: 0,
            late: 0,
            bytes: 0,
        }
    }

    /// The reader or the writer itself.
    pub fn into_inner(self) -> I
        ensures { result ≡ self.inner }
    {
        self.inner
    }

    // One more failure.
    fn count(&mut self)
        ensures inner { self.new.inner ≡ self.old.inner }
        ensures failures { self.new.failures ≡ counted_up self.old.failures }
        ensures moved { self.new.moved ≡ self.old.moved }
        ensures none { self.new.none ≡ self.old.none }
        ensures late { self.new.late ≡ self.old.late }
        ensures bytes { self.new.bytes ≡ self.old.bytes }
    {
        self.failures = self.failures.saturating_add(1);
    }

    // One more read or write, which moved so many bytes, or failed.
    fn count_call(&mut self, given: &io::Result<usize>)
        ensures inner { self.new.inner ≡ self.old.inner }
        ensures failures { self.new.failures ≡ self.old.failures }
        ensures calls { MatchResult given.now (λ n. CountsCall self.old self.new n)
            (λ _. CountsFault self.old self.new) }
    {
        if self.none > 0 || self.failures > 0 {
            self.late = self.late.saturating_add(1);
        }
        match given {
            Ok(0) => self.none = self.none.saturating_add(1),
            Ok(count) => {
                self.moved = self.moved.saturating_add(1);
                self.bytes = self.bytes.saturating_add(*count as u64);
            }
            Err(_) => {}
        }
    }
}

impl<R: Read> Read for Counted<R> {
    ghost remaining = { λ c. R.remaining c.inner };

    fn read(&mut self, buf: &mut [u8]) -> io::Result<usize>
        ensures bound { ReadsAtMost result buf.new }
        ensures bytes { ReadConsumes (R.remaining self.old.inner) (R.remaining self.new.inner)
            result buf.new }
        ensures failures { MatchResult result (λ _. self.new.failures ≡ self.old.failures)
            (λ _. self.new.failures ≡ counted_up self.old.failures) }
        ensures calls { MatchResult result (λ n. CountsCall self.old self.new n)
            (λ _. CountsFault self.old self.new) }
    {
        let result = self.inner.read(buf);
        self.count_call(&result);
        if result.is_err() {
            self.count();
        }
        result
    }
}

impl<W: Write> Write for Counted<W> {
    ghost contents = { λ c. W.contents c.inner };

    fn write(&mut self, buf: &[u8]) -> io::Result<usize>
        ensures bound { WritesAtMost result buf.now }
        ensures bytes { WriteAppends (W.contents self.old.inner) (W.contents self.new.inner)
            result buf.now }
        ensures failures { MatchResult result
            (λ n. self.new.failures ≡ counted_write self.old.failures n)
            (λ _. self.new.failures ≡ counted_up self.old.failures) }
        ensures calls { MatchResult result (λ n. CountsCall self.old self.new n)
            (λ _. CountsFault self.old self.new) }
    {
        let result = self.inner.write(buf);
        self.count_call(&result);
        if !matches!(&result, Ok(1..)) {
            self.count();
        }
        result
    }

    fn flush(&mut self) -> io::Result<()>
        ensures bytes { Keeps (W.contents self.old.inner) (W.contents self.new.inner) }
        ensures failures { MatchResult result (λ _. self.new.failures ≡ self.old.failures)
            (λ _. self.new.failures ≡ counted_up self.old.failures) }
    {
        let result = self.inner.flush();
        if result.is_err() {
            self.count();
        }
        result
    }
}
