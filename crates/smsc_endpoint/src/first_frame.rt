//! The frame that names the handset of a link.
ghost use Rattle.std.specs.Prelude.{◌≡◌, ◌≤◌, length, option_map};
ghost use Rattle.std.specs.List.{list_all};
ghost use Rattle.std.specs.Str.{bytes_eq};
ghost use Rattle.sms_base.specs.HandsetNumber.{is_decimal};
ghost use Rattle.smsc_endpoint.specs.FirstFrame.{are_digits as are_digits_of, before_space as before_space_of, behind_space as behind_space_of};
ghost use Rattle.smsc_endpoint.specs.FirstFrame.{given_by as given_number, is_secret_of as is_secret, next_octet, number_by as number_with};
ghost use Rattle.smsc_endpoint.specs.FirstFrame.{is_number as is_number_of, number_of as number_named, refused_by};

use crate::link_access::{LinkAccess, LinkSecret};
use sms_base::Msisdn;
use smsc_loop::Note;

fn are_decimal(octets: &[u8]) -> bool
    ensures { result ≡ list_all is_decimal octets.now }
{
    octets.iter().all(|octet| octet.is_ascii_digit())
}

fn are_digits(octets: &[u8]) -> bool
    ensures { result ≡ are_digits_of octets.now }
{
    1 <= octets.len() && are_decimal(octets)
}

fn is_number(octets: &[u8]) -> bool
    ensures { result ≡ is_number_of octets.now }
{
    octets.len() <= 20 && are_digits(octets)
}

// The number that the octets are: 1 to 20 digits in ASCII.
fn number_of(octets: &[u8]) -> Option<Msisdn>
    ensures { result ≡ number_named octets.now }
{
    if !is_number(octets) {
        return None;
    }
    Msisdn::of(octets)
}

// How many octets are before the first space. A frame has 251 at most.
fn count_before(octets: &[u8]) -> usize
    ensures value { result ≡ length (before_space_of octets.now) }
    ensures within { result ≤ length octets.now }
{
    match octets {
        [] => 0,
        [first, rest @ ..] => {
            if *first == 0x20 {
                return 0;
            }
            count_before(rest) + 1
        }
    }
}

#[tactic(auto, using(crate::proofs::Secrets::before_is_taken))]
fn before_space(octets: &[u8]) -> &[u8]
    ensures { result.now ≡ before_space_of octets.now }
{
    let count = count_before(octets);
    &octets[..count]
}

fn behind_space(octets: &[u8]) -> Option<&[u8]>
    ensures { option_map (λ s. s.now) result ≡ behind_space_of octets.now }
{
    match octets {
        [] => None,
        [first, rest @ ..] => {
            if *first == 0x20 {
                return Some(rest);
            }
            behind_space(rest)
        }
    }
}

// The first octet and those behind it; 0 where there is none.
fn next_of(octets: &[u8]) -> (u8, &[u8])
    ensures { (result.0, result.1.now) ≡ next_octet octets.now }
{
    match octets {
        [] => (0, octets),
        [first, rest @ ..] => (*first, rest),
    }
}

// Whether the secret was given. It goes over all octets that were, so that its time tells nobody where a wrong one differs, nor how
// long the right one is.
fn is_same(secret: &[u8], given: &[u8]) -> bool
    ensures { result ≡ bytes_eq secret.now given.now }
{
    let mut differs = secret.len() != given.len();
    let mut left = secret;
    for octet in given {
        let (own, rest) = next_of(left);
        differs = differs | (own != *octet);
        left = rest;
    }
    !differs
}

fn is_secret_of(number: &[u8], given: &[u8], secrets: &[LinkSecret]) -> bool
    ensures { result ≡ is_secret number.now given.now secrets.now }
{
    for own in secrets {
        if own.number.as_slice() == number {
            return is_same(own.secret.as_slice(), given);
        }
    }
    false
}

fn number_by(number: &[u8], given: Option<&[u8]>, secrets: &[LinkSecret]) -> Option<Msisdn>
    ensures { result ≡ number_with number.now (option_map (λ s. s.now) given.entry) secrets.now }
{
    match given {
        Some(given) => {
            if is_secret_of(number, given, secrets) {
                return number_of(number);
            }
            None
        }
        None => None,
    }
}

/// The number whose link a first frame is given.
pub(crate) fn given_by(access: &LinkAccess, frame: &[u8]) -> Option<Msisdn>
    ensures { result ≡ given_number access.now frame.now }
{
    match access {
        LinkAccess::Anyone => number_of(frame),
        LinkAccess::Secrets(secrets) => {
            number_by(before_space(frame), behind_space(frame), secrets.as_slice())
        }
    }
}

/// Why a first frame is given no link, for the log.
pub(crate) fn refusal_of(access: &LinkAccess, frame: &[u8]) -> Note
    ensures { result ≡ refused_by access.now frame.now }
{
    match access {
        LinkAccess::Anyone => Note::NoNumber,
        LinkAccess::Secrets(_) => match number_of(before_space(frame)) {
            Some(number) => Note::WrongSecret(number),
            None => Note::NoNumber,
        },
    }
}
