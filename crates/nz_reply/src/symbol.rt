//! Symbols and string literals, as they are spelled (SMT-LIB 2.6, section 3.1).
ghost use Rattle.nz_script.specs.replies.Reply.{literal_text, symbol_text};
ghost use Rattle.nz_script.specs.text.Text.{with_quotes_doubled};

use crate::write::{Spell, WriteFault};
use nz_base::Sink;
use nz_sexpr::is_simple_symbol;

/// The symbol of this name: between bars, where it is no simple symbol.
#[derive(Drop)]
pub(crate) struct Symbol<'a>(pub(crate) &'a [u8]);

impl<'a> Spell for Symbol<'a> {
    ghost text = { λ s. symbol_text s.0.now };

    fn write<K: Sink>(&self, sink: &mut K) -> Result<(), WriteFault> {
        if is_simple_symbol(self.0) {
            self.0.write(sink)
        } else {
            ("|", self.0, "|").write(sink)
        }
    }
}

/// The string literal of this text: between quotes, each quote in it twice.
#[derive(Drop)]
pub(crate) struct Literal<'a>(pub(crate) &'a [u8]);

impl<'a> Spell for Literal<'a> {
    ghost text = { λ l. literal_text l.0.now };

    fn write<K: Sink>(&self, sink: &mut K) -> Result<(), WriteFault> {
        ("\"", Quoted(self.0), "\"").write(sink)
    }
}

/// A text with each quote twice.
#[derive(Drop)]
struct Quoted<'a>(&'a [u8]);

impl<'a> Spell for Quoted<'a> {
    ghost text = { λ q. with_quotes_doubled q.0.now };

    fn write<K: Sink>(&self, sink: &mut K) -> Result<(), WriteFault> {
        let text = self.0;
        let mut start = 0;
        for index in 0..text.len() {
            if text[index] == b'"' {
                // The quote ends this run, and begins the next one too.
                let run = &text[start..index + 1];
                run.write(sink)?;
                start = index;
            }
        }
        let run = &text[start..];
        run.write(sink)
    }
}
