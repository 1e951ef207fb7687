//! Fields as they are written, into a vector that has room for them: so no write is refused.
ghost use Rattle.std.specs.Prelude.{◌≡◌, ◌<◌, ◌≤◌, ◌+◌, ◌++◌, ◌∷◌, [], length, vec_capacity, vec_len};
ghost use Rattle.smpp_pdu.specs.Fields.{two, four, c_string, counted};

use sms_base::OctetView;

// An octet.
pub(crate) fn put_octet(out: &mut Vec<u8>, octet: u8)
    requires { vec_len out.old + 1 ≤ vec_capacity out.old }
    ensures items { out.new.items ≡ out.old.items ++ octet ∷ [] }
    ensures len { vec_len out.new ≡ vec_len out.old + 1 }
    ensures capacity { vec_capacity out.old ≤ vec_capacity out.new }
{
    out.push(octet).unwrap();
}

// An integer of two octets.
pub(crate) fn put_two(out: &mut Vec<u8>, number: u16)
    requires { vec_len out.old + length (two number) ≤ vec_capacity out.old }
    ensures items { out.new.items ≡ out.old.items ++ two number }
    ensures len { vec_len out.new ≡ vec_len out.old + length (two number) }
    ensures capacity { vec_capacity out.old ≤ vec_capacity out.new }
{
    put_octet(out, (number / 256) as u8);
    put_octet(out, (number % 256) as u8);
}

// An integer of four octets.
pub(crate) fn put_four(out: &mut Vec<u8>, number: u32)
    requires { vec_len out.old + length (four number) ≤ vec_capacity out.old }
    ensures items { out.new.items ≡ out.old.items ++ four number }
    ensures len { vec_len out.new ≡ vec_len out.old + length (four number) }
    ensures capacity { vec_capacity out.old ≤ vec_capacity out.new }
{
    put_two(out, (number / 65_536) as u16);
    put_two(out, (number % 65_536) as u16);
}

// A C-octet string.
#[tactic(auto, using(crate::proofs::Lengths::last_length))]
pub(crate) fn put_text(out: &mut Vec<u8>, text: &OctetView<'_>)
    requires { vec_len out.old + length (c_string text.now) ≤ vec_capacity out.old }
    ensures items { out.new.items ≡ out.old.items ++ c_string text.now }
    ensures len { vec_len out.new ≡ vec_len out.old + length (c_string text.now) }
    ensures capacity { vec_capacity out.old ≤ vec_capacity out.new }
{
    out.extend_from_slice(text.as_slice()).unwrap();
    put_octet(out, 0);
}

// A message behind the number of its octets.
pub(crate) fn put_counted(out: &mut Vec<u8>, octets: &OctetView<'_>)
    requires limit { length octets.now < 255 }
    requires room { vec_len out.old + length (counted octets.now) ≤ vec_capacity out.old }
    ensures items { out.new.items ≡ out.old.items ++ counted octets.now }
    ensures len { vec_len out.new ≡ vec_len out.old + length (counted octets.now) }
    ensures capacity { vec_capacity out.old ≤ vec_capacity out.new }
{
    put_octet(out, octets.as_slice().len() as u8);
    out.extend_from_slice(octets.as_slice()).unwrap();
}
