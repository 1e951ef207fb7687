//! Numbers and the secrets of their links, in words.
ghost use Rattle.std.specs.Prelude.{◌≡◌, ◌+◌, ◌<◌, ◌^◌, ℕ, List, true, false, length, Err, IfNone, IfSome, OnErr, OnOk};
ghost use Rattle.std.specs.Char.{is_ascii_graphic};
ghost use Rattle.std.specs.List.{list_all};
ghost use Rattle.smsc_cli.specs.words.Accounts.{bare_of, lines_of};
ghost use Rattle.smsc_cli.specs.words.Secrets.{AddsNoSecret, AddsSecret, AddsSecrets, SpellsSecret, StopsAtSecret};
ghost use Rattle.smsc_cli.specs.words.Secrets.{is_number_text as is_number_of, is_secret_text as is_secret_of, unended_of};
ghost use Rattle.smsc_cli.specs.declared.words.accounts.FileFault.TheVariants.{BadLine};
ghost use Rattle.smsc_cli.specs.declared.words.fault.WordsFault.TheVariants.{BadWords, NoMemory};

use crate::words::account::at_colon;
use crate::words::accounts::{FileFault, at_line_feed, bare, line_fault};
use crate::words::fault::WordsFault;
use crate::words::number::is_decimal_text;
use crate::words::several::{Named, has_room};

/// How many numbers may have secrets.
const MOST_SECRETS: usize = 1000;

/// A number and the secret of its links, as they are written.
#[derive(Clone, Copy)]
pub struct SecretWords<'a> {
    /// 1 to 20 digits 0 to 9.
    pub number: &'a str,
    /// 1 to 64 visible ASCII characters.
    pub secret: &'a str,
}

pub(crate) fn is_number_text(text: &str) -> bool
    ensures { result ≡ is_number_of text.now }
{
    1 <= text.len() && text.len() <= 20 && is_decimal_text(text)
}

fn is_visible(text: &str) -> bool
    ensures { result ≡ list_all is_ascii_graphic text.now }
{
    text.as_bytes().iter().all(|octet| octet.is_ascii_graphic())
}

fn is_secret_text(text: &str) -> bool
    ensures { result ≡ is_secret_of text.now }
{
    1 <= text.len() && text.len() <= 64 && is_visible(text)
}

// The text, where it is a number.
fn number_in<'a>(text: &'a str) -> Option<&'a str>
    ensures found { IfSome result (λ number. (number.now ≡ text.entry.now) × (is_number_of text.entry.now ≡ true)) }
    ensures none { IfNone result (is_number_of text.entry.now ≡ false) }
{
    if is_number_text(text) {
        Some(text)
    } else {
        None
    }
}

// The text, where it is a secret.
fn secret_text_in<'a>(text: &'a str) -> Option<&'a str>
    ensures found { IfSome result (λ secret. (secret.now ≡ text.entry.now) × (is_secret_of text.entry.now ≡ true)) }
    ensures none { IfNone result (is_secret_of text.entry.now ≡ false) }
{
    if is_secret_text(text) {
        Some(text)
    } else {
        None
    }
}

// The number and the secret that the text spells: `NUMBER:SECRET`, cut at its first colon.
fn secret_of<'a>(text: &'a str) -> Option<SecretWords<'a>>
    ensures found { IfSome result (λ words. SpellsSecret text.entry.now words.number.now words.secret.now) }
    ensures only { IfNone result ((number secret : List ℕ) → ¬ SpellsSecret text.entry.now number secret) }
{
    let (before, behind) = at_colon(text)?;
    let number = number_in(before)?;
    let secret = secret_text_in(behind)?;
    Some(SecretWords { number, secret })
}

// ---- several

impl Named for SecretWords<'_> {
    ghost name = { λ some. some.number.now };

    fn has_name(&self, text: &str) -> bool {
        self.number == text
    }
}

// The secret that the text spells, if it may be added.
fn add<'a>(secrets: &mut Vec<SecretWords<'a>>, text: &'a str) -> Result<(), WordsFault>
    ensures ok { OnOk result (AddsSecret text.entry.now secrets.old.items secrets.new.items) }
    ensures err { OnErr result (secrets.new.items ≡ secrets.old.items) }
    ensures bad { result ≡ Err BadWords → AddsNoSecret text.entry.now secrets.old.items }
    ensures memory { result ≡ Err NoMemory → ¬ AddsNoSecret text.entry.now secrets.old.items }
{
    match secret_of(text) {
        Some(words) => {
            if !has_room(MOST_SECRETS, words.number, secrets.as_slice()) {
                return Err(WordsFault::BadWords);
            }
            match secrets.push(words) {
                Ok(()) => Ok(()),
                Err(_) => Err(WordsFault::NoMemory),
            }
        }
        None => Err(WordsFault::BadWords),
    }
}

// The secret of the line of this number.
fn add_line<'a>(
    secrets: &mut Vec<SecretWords<'a>>,
    line: &'a str,
    number: usize,
) -> Result<(), FileFault>
    ensures ok { OnOk result (AddsSecret line.entry.now secrets.old.items secrets.new.items) }
    ensures err { OnErr result (secrets.new.items ≡ secrets.old.items) }
    ensures bad { (bad : ℕ) → result ≡ Err (BadLine bad) → (bad ≡ number) × AddsNoSecret line.entry.now secrets.old.items }
{
    match add(secrets, line) {
        Ok(()) => Ok(()),
        Err(fault) => Err(line_fault(fault, number)),
    }
}

// The secrets of these lines, of which the first has that number. The calls in one another are no more than the secrets.
fn add_from<'a>(
    secrets: &mut Vec<SecretWords<'a>>,
    file: &'a str,
    number: usize,
) -> Result<(), FileFault>
    requires { number + length file.now < 2 ^ 64 }
    ensures ok { OnOk result (AddsSecrets (lines_of file.entry.now) secrets.old.items secrets.new.items) }
    ensures bad { (bad : ℕ) → result ≡ Err (BadLine bad) →
        (place : ℕ) × (bad ≡ place + number) × StopsAtSecret place (lines_of file.entry.now) secrets.old.items secrets.new.items }
{
    if file.is_empty() {
        return Ok(());
    }
    match at_line_feed(file) {
        Some((line, rest)) => match add_line(secrets, bare(line), number) {
            Ok(()) => add_from(secrets, rest, number + 1),
            Err(fault) => Err(fault),
        },
        None => add_line(secrets, file, number),
    }
}

/// The numbers and secrets of a file, `NUMBER:SECRET` a line, behind these: a thousand at most, no number twice.
///
/// The last line may lack its end. A bad line is the first that spells no secret more. The lines before it have theirs.
pub fn add_secret_lines<'a>(
    secrets: &mut Vec<SecretWords<'a>>,
    file: &'a str,
) -> Result<(), FileFault>
    ensures ok { OnOk result (AddsSecrets (lines_of file.entry.now) secrets.old.items secrets.new.items) }
    ensures bad { (bad : ℕ) → result ≡ Err (BadLine bad) →
        (place : ℕ) × (bad ≡ place + 1) × StopsAtSecret place (lines_of file.entry.now) secrets.old.items secrets.new.items }
{
    add_from(secrets, file, 1)
}

// ---- one

// The text without a line feed at its end.
fn unended<'a>(text: &'a str) -> &'a str
    ensures { result.now ≡ unended_of text.entry.now }
{
    match text.strip_suffix('\n') {
        Some(line) => line,
        None => text,
    }
}

/// The secret that is the only line of a file: 1 to 64 visible ASCII characters.
pub fn secret_in<'a>(file: &'a str) -> Option<&'a str>
    ensures found { IfSome result (λ secret. (secret.now ≡ bare_of (unended_of file.entry.now))
        × (is_secret_of (bare_of (unended_of file.entry.now)) ≡ true)) }
    ensures none { IfNone result (is_secret_of (bare_of (unended_of file.entry.now)) ≡ false) }
{
    secret_text_in(bare(unended(file)))
}
