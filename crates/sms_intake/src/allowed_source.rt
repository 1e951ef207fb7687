//! The sources that an account may give.
ghost use Rattle.std.specs.Prelude.{◌≡◌};
ghost use Rattle.std.specs.List.{list_any};
ghost use Rattle.sms_intake.specs.AllowedSources.{allows, begins_with as begins_with_of, is_one as is_one_of, is_source as is_source_of, names_none, permitted};

use crate::submission::CentreAccount;
use sms_base::{Address, Digits};

/// A source that an account may give.
#[derive(Clone, Copy, PartialEq, Eq)]
pub enum AllowedSource {
    /// The number of these digits.
    Number(Digits),
    /// Each number that begins with these digits.
    Prefix(Digits),
    /// The name of these characters.
    Name(Digits),
}

fn begins_with(wanted: &[char], digits: &[char]) -> bool
    ensures { result ≡ begins_with_of wanted.now digits.now }
{
    match wanted {
        [] => true,
        [first, more @ ..] => match digits {
            [] => false,
            [digit, others @ ..] => *first == *digit && begins_with(more, others),
        },
    }
}

fn is_source(source: &Address, allowed: &AllowedSource) -> bool
    ensures { result ≡ is_source_of source.now allowed.now }
{
    match allowed {
        AllowedSource::Number(digits) => {
            !source.ton.is_name() && source.digits.as_slice() == digits.as_slice()
        }
        AllowedSource::Prefix(digits) => {
            !source.ton.is_name() && begins_with(digits.as_slice(), source.digits.as_slice())
        }
        AllowedSource::Name(name) => {
            source.ton.is_name() && source.digits.as_slice() == name.as_slice()
        }
    }
}

fn is_any(source: &Address, sources: &[AllowedSource]) -> bool
    ensures { result ≡ list_any (is_source_of source.now) sources.now }
{
    sources.iter().any(|allowed| is_source(source, allowed))
}

fn is_one(account: &CentreAccount, source: &Address) -> bool
    ensures { result ≡ is_one_of account.now source.now }
{
    is_source(source, &AllowedSource::Number(account.address.digits))
        || is_any(source, account.sources.as_slice())
}

fn has_none(sources: &[AllowedSource]) -> bool
    ensures { result ≡ names_none sources.now }
{
    match sources {
        [] => true,
        [_, ..] => false,
    }
}

// Whether the account may give the source.
fn may_give(account: &CentreAccount, source: &Address) -> bool
    ensures { result ≡ allows account.now source.now }
{
    has_none(account.sources.as_slice()) || is_one(account, source)
}

/// The source, where there is one and the account may give it.
pub(crate) fn permitted_source(account: &CentreAccount, source: Option<Address>) -> Option<Address>
    ensures { result ≡ permitted account.now source }
{
    match source {
        Some(source) if may_give(account, &source) => Some(source),
        _ => None,
    }
}
