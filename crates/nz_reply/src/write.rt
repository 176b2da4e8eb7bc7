//! Writing texts to a sink.
ghost use Rattle.std.specs.Prelude.{ℕ, List, ◌++◌, flat_map};
ghost use Rattle.nz_reply.specs.Parts.{parts_text};
ghost use Rattle.nz_reply.specs.Writes.{Writes};

use nz_base::{Failed, Sink, write_all};

/// The sink failed: it took a front of what was to be written.
#[derive(Clone, Copy, Debug, PartialEq, Eq)]
pub struct WriteFault;

impl From<Failed> for WriteFault {
    fn from(_failed: Failed) -> WriteFault {
        WriteFault
    }
}

/// What is spelled as a text.
pub(crate) trait Spell {
    ghost text: { Self → List ℕ };

    /// Writes the text.
    ///
    /// # Errors
    ///
    /// `WriteFault` where the sink failed, which it counts once. Then a front of the text was written.
    fn write<K: Sink>(&self, sink: &mut K) -> Result<(), WriteFault>
        ensures written { Writes K.held K.faults K.last sink.old sink.new (text self.now) result };
}

impl<'a> Spell for &'a [u8] {
    ghost text = { λ bytes. bytes.now };

    fn write<K: Sink>(&self, sink: &mut K) -> Result<(), WriteFault> {
        write_all(sink, *self)?;
        Ok(())
    }
}

impl<'a> Spell for &'a str {
    ghost text = { λ words. words.now };

    fn write<K: Sink>(&self, sink: &mut K) -> Result<(), WriteFault> {
        self.as_bytes().write(sink)
    }
}

impl<'a, T: Spell> Spell for &'a T {
    ghost text = { λ it. T.text it.now };

    fn write<K: Sink>(&self, sink: &mut K) -> Result<(), WriteFault> {
        (**self).write(sink)
    }
}

impl<A: Spell, B: Spell> Spell for (A, B) {
    ghost text = { λ parts. A.text parts.0 ++ B.text parts.1 };

    fn write<K: Sink>(&self, sink: &mut K) -> Result<(), WriteFault> {
        self.0.write(sink)?;
        self.1.write(sink)
    }
}

impl<A: Spell, B: Spell, C: Spell> Spell for (A, B, C) {
    ghost text = { λ parts. A.text parts.0 ++ B.text parts.1 ++ C.text parts.2 };

    fn write<K: Sink>(&self, sink: &mut K) -> Result<(), WriteFault> {
        self.0.write(sink)?;
        self.1.write(sink)?;
        self.2.write(sink)
    }
}

/// Texts, one behind another.
#[derive(Drop)]
pub(crate) struct All<'a, T>(pub(crate) &'a [T]);

impl<'a, T: Spell> Spell for All<'a, T> {
    ghost text = { λ all. flat_map T.text all.0.now };

    fn write<K: Sink>(&self, sink: &mut K) -> Result<(), WriteFault> {
        for text in self.0 {
            text.write(sink)?;
        }
        Ok(())
    }
}

/// Writes the texts, one after another.
///
/// # Errors
///
/// `WriteFault` where the sink failed, which it counts once. Then a front of the texts was written.
pub fn write_parts<K: Sink>(sink: &mut K, parts: &[&[u8]]) -> Result<(), WriteFault>
    ensures written { Writes K.held K.faults K.last sink.old sink.new (parts_text parts.now) result }
{
    All(parts).write(sink)
}

/// Writes a text.
///
/// # Errors
///
/// `WriteFault` where the sink failed, which it counts once. Then a front of the text was written.
pub fn write_text<K: Sink>(sink: &mut K, text: &[u8]) -> Result<(), WriteFault>
    ensures written { Writes K.held K.faults K.last sink.old sink.new text.now result }
{
    text.write(sink)
}
