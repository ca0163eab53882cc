//! [`Output`]: a writer that remembers a failed write.

ghost use Rattle.std.specs.Prelude.{◌≡◌, false, true};
ghost use Rattle.std.specs.Io.KnownBytes.{Appends};
ghost use Rattle.text_codec.specs.Refusal.{refusal_line};
ghost use Rattle.sja_program.specs.Denials.{told_of};

use super::unanswered::Unanswered;
use std::io::Write;
use text_codec::CommandRefusal;

/// A writer, and whether a write to it has failed.
///
/// A contract can say of such a writer what it holds where no write failed (this project's own rule).
#[derive(Drop)]
pub struct Output<W: Write> {
    /// Where the bytes go.
    pub writer: W,
    /// A write has failed. Nothing more is written then.
    pub failed: bool,
}

impl<W: Write> Output<W> {
    /// A writer to which no write has failed.
    pub fn new(writer: W) -> Output<W>
        ensures { result ≡ record { writer = writer; failed = false } }
    {
        Output {
            writer,
            failed: false,
        }
    }

    /// Writes these bytes. After a failed write nothing is written.
    pub fn put(&mut self, bytes: &[u8])
        ensures written { self.new.failed ≡ false → (self.old.failed ≡ false)
            × Appends (W.contents self.old.writer) (W.contents self.new.writer) bytes.now }
        ensures stopped { self.old.failed ≡ true → self.new ≡ self.old }
    {
        if !self.failed {
            self.failed = self.writer.write_all(bytes).is_err();
        }
    }

    /// Writes the one line of a refusal, and gives its exit status.
    pub fn refuse(&mut self, refusal: CommandRefusal) -> u8
        ensures status { result ≡ 1 }
        ensures written { self.new.failed ≡ false → (self.old.failed ≡ false)
            × Appends (W.contents self.old.writer) (W.contents self.new.writer) (refusal_line refusal) }
        ensures stopped { self.old.failed ≡ true → self.new ≡ self.old }
    {
        if !self.failed {
            self.failed = writeln!(self.writer, "sja: {refusal}").is_err();
        }
        1
    }

    /// Writes why what was asked has no answer, and gives its exit status.
    pub fn deny(&mut self, why: &Unanswered) -> u8
        ensures status { result ≡ 1 }
        ensures written { self.new.failed ≡ false → (self.old.failed ≡ false)
            × Appends (W.contents self.old.writer) (W.contents self.new.writer) (told_of why.now) }
        ensures stopped { self.old.failed ≡ true → self.new ≡ self.old }
    {
        match why {
            Unanswered::Refused(refusal) => self.refuse(*refusal),
            Unanswered::Mistaken(text) => {
                self.put(text.as_slice());
                1
            }
        }
    }

    /// Writes the parser's own text for words that it turned away, and gives the exit status: 2, or 1 where a write
    /// failed.
    pub fn turn_away(&mut self, text: &[u8]) -> u8
        ensures status { self.new.failed ≡ false → result ≡ 2 }
        ensures failed { self.new.failed ≡ true → result ≡ 1 }
        ensures written { self.new.failed ≡ false → (self.old.failed ≡ false)
            × Appends (W.contents self.old.writer) (W.contents self.new.writer) text.now }
        ensures stopped { self.old.failed ≡ true → self.new ≡ self.old }
    {
        self.put(text);
        if self.failed { 1 } else { 2 }
    }

    /// Writes the text that answers, and gives the exit status: 0, or 1 where a write failed.
    pub fn print(&mut self, text: &[u8]) -> u8
        ensures status { self.new.failed ≡ false → result ≡ 0 }
        ensures failed { self.new.failed ≡ true → result ≡ 1 }
        ensures written { self.new.failed ≡ false → (self.old.failed ≡ false)
            × Appends (W.contents self.old.writer) (W.contents self.new.writer) text.now }
    {
        self.put(text);
        if self.failed { 1 } else { 0 }
    }
}
