//! Laws of what a status page says of names, over their definitions alone.
ghost use Rattle.std.specs.Prelude.{ℕ, List, map};
ghost use Rattle.sms_base.specs.Markup.{escaped};
ghost use Rattle.sms_base.specs.MarkupReading.{IsRead, legible};
ghost use Rattle.smsc_status.specs.Quoting.{quoted};
ghost use Rattle.smsc_status.specs.Reading.{IsUnquoted};

/// A browser gets each text of the page as it was, with `?` for what is no printable ASCII: no name of an account is markup.
pub fn an_escaped_text_is_read_again()
    ensures { (text : List ℕ) → IsRead (escaped text) (map legible text) }
{}

/// A reader of JSON, or of a metric's label, gets each text as it was, with `?` for what is no printable ASCII. So no name
/// ends its quotation marks.
pub fn a_quoted_text_is_read_again()
    ensures { (text : List ℕ) → IsUnquoted (quoted text) (map legible text) }
{}
