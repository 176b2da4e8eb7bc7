//! Laws of texts.
ghost use Rattle.nz_script.specs.text.Text.{OneReading};
ghost use Rattle.nz_script.specs.text.Told.{ReadingIsHeard, ReadingTellsFirst};

/// Each text is heard in exactly one way.
pub fn one_reading()
    ensures one { OneReading }
{}

/// What is told where a text is read byte by byte is what is heard in it.
pub fn reading_is_heard()
    ensures heard { ReadingIsHeard }
{}

/// What is told by then, where only the front of a text was read, is all that is complete in it.
pub fn reading_tells_first()
    ensures first { ReadingTellsFirst }
{}
