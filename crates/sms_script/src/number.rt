//! Numbers that a line writes in decimal digits.
ghost use Rattle.std.specs.Prelude.{◌≡◌};
ghost use Rattle.sms_script.specs.Numbers.{with_digit, number_of, small_of, flag_of, moment_of};

use crate::fault::LineFault;
use sms_base::Moment;

// A number with one more decimal digit, kept within 64 bits.
fn with_digit(number: u64, octet: u8) -> Result<u64, LineFault>
    ensures { result ≡ with_digit number octet }
{
    if !octet.is_ascii_digit() {
        return Err(LineFault::BadLine);
    }
    Ok(
        number
            .saturating_mul(10)
            .saturating_add(u64::from(octet - b'0')),
    )
}

/// The number that decimal digits write, leading zeros among them; one that doesn't fit 64 bits is kept as the greatest
/// that does.
#[tactic(auto, using(crate::proofs::Decimals::number_begins))]
pub(crate) fn number_of(word: &[u8]) -> Result<u64, LineFault>
    ensures { result ≡ number_of word.now }
{
    let mut number: u64 = 0;
    for octet in word {
        number = with_digit(number, *octet)?;
    }
    Ok(number)
}

/// A number up to a limit.
pub(crate) fn small_of(limit: u8, word: &[u8]) -> Result<u8, LineFault>
    ensures { result ≡ small_of limit word.now }
{
    match u8::try_from(number_of(word)?) {
        Ok(number) if number <= limit => Ok(number),
        _ => Err(LineFault::BadLine),
    }
}

/// 0 or 1.
pub(crate) fn flag_of(word: &[u8]) -> Result<bool, LineFault>
    ensures { result ≡ flag_of word.now }
{
    match number_of(word)? {
        0 => Ok(false),
        1 => Ok(true),
        _ => Err(LineFault::BadLine),
    }
}

/// A moment, by its seconds after 1970 began.
pub(crate) fn moment_of(word: &[u8]) -> Result<Moment, LineFault>
    ensures { result ≡ moment_of word.now }
{
    match Moment::from_seconds(number_of(word)?) {
        Ok(moment) => Ok(moment),
        Err(_) => Err(LineFault::BadLine),
    }
}
