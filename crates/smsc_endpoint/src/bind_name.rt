//! The name that a refused bind gives, as a line of the log has it.
ghost use Rattle.std.specs.Prelude.{◌≡◌, ◌-◌, ◌++◌, length, map, take};
ghost use Rattle.smsc_endpoint.specs.BindName.{is_plain as is_plain_of, shown as shown_of, shown_name as shown_name_of};

use sms_base::Digits;

// Whether a line of a log may have the octet in a name: it is visible, and neither a quotation mark nor an equals sign.
fn is_plain(octet: u8) -> bool
    ensures { result ≡ is_plain_of octet }
{
    (0x21 <= octet && octet <= 0x7E) && octet != 0x22 && octet != 0x3D
}

fn shown(octet: u8) -> char
    ensures { result ≡ shown_of octet }
{
    if is_plain(octet) {
        char::from(octet)
    } else {
        '?'
    }
}

// Puts the octets behind a name, as far as there is room.
fn put(name: &mut Digits, octets: &[u8])
    ensures { name.new ≡ name.old ++ map shown_of (take (20 - length name.old) octets.now) }
{
    if let [first, rest @ ..] = octets {
        if name.len() < 20 {
            name.push(shown(*first));
            put(name, rest);
        }
    }
}

/// The octets of a name as a line of a log has them.
pub(crate) fn shown_name(octets: &[u8]) -> Digits
    ensures { result ≡ shown_name_of octets.now }
{
    let mut name = Digits::new();
    put(&mut name, octets);
    name
}
