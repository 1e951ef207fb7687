//! A record whose fields are read from a row, and a value that a word in a column names.

/// The record: each field is read by its reader, from the first of its columns on. The first that is not read is the
/// error.
#[macro_export]
macro_rules! fields {
    ($record:ident in $row:ident, $($field:ident: $reader:ident($at:expr)),+ $(,)?) => {{
        $(let $field = $reader($row, $at)?;)+
        Ok($record { $($field),+ })
    }};
}

/// The value that the word in the column names. A word that names none is an error.
#[macro_export]
macro_rules! named {
    ($row:ident, $at:ident, $($word:literal => $value:expr),+ $(,)?) => {{
        let word = text_at($row, $at)?;
        $(if word == $word {
            return Ok($value);
        })+
        Err(Error::Utf8Error($at))
    }};
}
