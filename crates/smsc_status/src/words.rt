//! Words of a line of the log.
ghost use Rattle.std.specs.Prelude.{◌≡◌, ◌++◌, OnOk};
ghost use Rattle.smsc_status.specs.Words.{are_bare as are_bare_of, is_bare_octet as is_bare_octet_of, word_text};

use crate::quoting::put_string;
use sms_base::Octets;
use std::alloc::AllocError;

fn is_bare_octet(octet: u8) -> bool
    ensures { result ≡ is_bare_octet_of octet }
{
    32 < octet && (octet < 127 && (!(octet == b'"') && (!(octet == b'=') && !(octet == b'\\'))))
}

// Whether no octet of the text ends a word, or begins one between quotation marks.
fn are_bare(text: &[u8]) -> bool
    ensures { result ≡ are_bare_of text.now }
{
    match text {
        [] => true,
        [first, rest @ ..] => is_bare_octet(*first) && are_bare(rest),
    }
}

/// A word as it is, or between quotation marks where a reader would take it for something else.
#[tactic(auto, unfolding(crate::specs::Words::word_text))]
pub(crate) fn put_word(out: &mut Octets, text: &[u8]) -> Result<(), AllocError>
    ensures { OnOk result (out.new ≡ out.old ++ word_text text.now) }
{
    if !text.is_empty() && are_bare(text) {
        out.append(text)
    } else {
        put_string(out, text)
    }
}
