//! Which heads can be played.
ghost use Rattle.std.specs.Prelude.{◌≡◌};
ghost use Rattle.std.specs.List.{list_all};
ghost use Rattle.sms_base.specs.HandsetNumber.{is_decimal};
ghost use Rattle.sms_player.specs.heads.Heads.{Judges};
ghost use Rattle.sms_play.specs.Setups.{are_accounts as are_accounts_of, are_handsets as are_handsets_of, can_be_played, has_account as has_account_of};
ghost use Rattle.sms_play.specs.Setups.{has_handset as has_handset_of, is_handset as is_handset_of, is_moment as is_moment_of, is_number as is_number_of};

use sms_base::Moment;
use sms_script::{AccountSetup, HandsetSetup, Setup};

fn are_decimal(digits: &[u8]) -> bool
    ensures { result ≡ list_all is_decimal digits.now }
{
    digits.iter().all(|digit| 48 <= *digit && *digit <= 57)
}

// 1 to 20 digits 0 to 9.
fn is_number(digits: &[u8]) -> bool
    ensures { result ≡ is_number_of digits.now }
{
    (0 < digits.len() && digits.len() <= 20) && are_decimal(digits)
}

fn has_account(name: &[u8], accounts: &[AccountSetup<'_>]) -> bool
    ensures { result ≡ has_account_of name.now accounts.now }
{
    for account in accounts {
        if account.name.as_slice() == name {
            return true;
        }
    }
    false
}

fn are_accounts(accounts: &[AccountSetup<'_>]) -> bool
    ensures { result ≡ are_accounts_of accounts.now }
{
    match accounts {
        [] => true,
        [account, others @ ..] => {
            (is_number(account.number.as_slice()) && !has_account(account.name.as_slice(), others))
                && are_accounts(others)
        }
    }
}

fn has_handset(number: &[u8], handsets: &[HandsetSetup<'_>]) -> bool
    ensures { result ≡ has_handset_of number.now handsets.now }
{
    for handset in handsets {
        if handset.number.as_slice() == number {
            return true;
        }
    }
    false
}

fn is_handset(handset: &HandsetSetup<'_>) -> bool
    ensures { result ≡ is_handset_of handset.now }
{
    is_number(handset.number.as_slice()) && (0 < handset.slots && handset.slots <= 255)
}

fn are_handsets(handsets: &[HandsetSetup<'_>]) -> bool
    ensures { result ≡ are_handsets_of handsets.now }
{
    match handsets {
        [] => true,
        [handset, others @ ..] => {
            (is_handset(handset) && !has_handset(handset.number.as_slice(), others))
                && are_handsets(others)
        }
    }
}

// 2000-01-01 00:00:00 to 2099-12-31 23:59:59.
fn is_moment(seconds: u64) -> bool
    ensures { result ≡ is_moment_of seconds }
{
    946_684_800 <= seconds && seconds <= 4_102_444_799
}

fn can_play(setup: &Setup<'_>) -> bool
    ensures { result ≡ can_be_played setup.now }
{
    let accounts = setup.accounts.as_slice();
    let handsets = setup.handsets.as_slice();
    (is_moment(setup.start) && is_number(setup.centre.as_slice()))
        && ((accounts.len() <= 32 && are_accounts(accounts))
            && ((0 < handsets.len() && handsets.len() <= 16) && are_handsets(handsets)))
}

/// The moment at which a script begins whose head can be played.
pub fn judge(setup: &Setup<'_>) -> Option<Moment>
    ensures { Judges result setup.now }
{
    if can_play(setup) {
        Moment::from_seconds(setup.start).ok()
    } else {
        None
    }
}
