//! The default alphabet (3GPP TS 23.038 6.2.1).
ghost use Rattle.std.specs.Prelude.{◌≡◌, ◌≢◌, ◌<◌, ℕ, ◌==◌, Some, IfSome, position, find, option_map, length};
ghost use Rattle.sms_base.specs.Alphabet.{IsPair, septets_in, code_for, main_septet_of, extended_septet_of, main_character, escaped_character};
ghost use Rattle.sms_base.specs.LatinCodes.{latin_entry};
ghost use Rattle.sms_base.specs.declared.alphabet.Code.{Code as CodeOf};

/// The septet that leads to the extension table.
pub const ESCAPE: u8 = 0x1B;

/// The characters of the septets 00 to 7F in order, a column of the standard's table a line. 1B, ESC, is no character.
pub static MAIN_TABLE: [char; 128] = [
    '@', '£', '$', '¥', 'è', 'é', 'ù', 'ì', 'ò', 'Ç', '\n', 'Ø', 'ø', '\r', 'Å', 'å', // 00 to 0F
    'Δ', '_', 'Φ', 'Γ', 'Λ', 'Ω', 'Π', 'Ψ', 'Σ', 'Θ', 'Ξ', '\u{1B}', 'Æ', 'æ', 'ß', 'É', // 10 to 1F
    ' ', '!', '"', '#', '¤', '%', '&', '\'', '(', ')', '*', '+', ',', '-', '.', '/', // 20 to 2F
    '0', '1', '2', '3', '4', '5', '6', '7', '8', '9', ':', ';', '<', '=', '>', '?', // 30 to 3F
    '¡', 'A', 'B', 'C', 'D', 'E', 'F', 'G', 'H', 'I', 'J', 'K', 'L', 'M', 'N', 'O', // 40 to 4F
    'P', 'Q', 'R', 'S', 'T', 'U', 'V', 'W', 'X', 'Y', 'Z', 'Ä', 'Ö', 'Ñ', 'Ü', '§', // 50 to 5F
    '¿', 'a', 'b', 'c', 'd', 'e', 'f', 'g', 'h', 'i', 'j', 'k', 'l', 'm', 'n', 'o', // 60 to 6F
    'p', 'q', 'r', 's', 't', 'u', 'v', 'w', 'x', 'y', 'z', 'ä', 'ö', 'ñ', 'ü', 'à', // 70 to 7F
];

/// The septets that spell a character behind ESC, with their characters (6.2.1.1).
pub static EXTENSION_TABLE: [(u8, char); 10] = [
    (0x0A, '\u{0C}'),
    (0x14, '^'),
    (0x28, '{'),
    (0x29, '}'),
    (0x2F, '\\'),
    (0x3C, '['),
    (0x3D, '~'),
    (0x3E, ']'),
    (0x40, '|'),
    (0x65, '€'),
];

/// The characters that ESC and each of the septets 00 to 7F are read as.
static AFTER_ESCAPE: [char; 128] = [
    '@', '£', '$', '¥', 'è', 'é', 'ù', 'ì', 'ò', 'Ç', '\u{0C}', 'Ø', 'ø', '\r', 'Å', 'å', // 00 to 0F
    'Δ', '_', 'Φ', 'Γ', '^', 'Ω', 'Π', 'Ψ', 'Σ', 'Θ', 'Ξ', ' ', 'Æ', 'æ', 'ß', 'É', // 10 to 1F
    ' ', '!', '"', '#', '¤', '%', '&', '\'', '{', '}', '*', '+', ',', '-', '.', '\\', // 20 to 2F
    '0', '1', '2', '3', '4', '5', '6', '7', '8', '9', ':', ';', '[', '~', ']', '?', // 30 to 3F
    '|', 'A', 'B', 'C', 'D', 'E', 'F', 'G', 'H', 'I', 'J', 'K', 'L', 'M', 'N', 'O', // 40 to 4F
    'P', 'Q', 'R', 'S', 'T', 'U', 'V', 'W', 'X', 'Y', 'Z', 'Ä', 'Ö', 'Ñ', 'Ü', '§', // 50 to 5F
    '¿', 'a', 'b', 'c', 'd', '€', 'f', 'g', 'h', 'i', 'j', 'k', 'l', 'm', 'n', 'o', // 60 to 6F
    'p', 'q', 'r', 's', 't', 'u', 'v', 'w', 'x', 'y', 'z', 'ä', 'ö', 'ñ', 'ü', 'à', // 70 to 7F
];

/// How the characters 00 to FF are written: a septet of the main table, or 80 and a septet of the extension table. FF
/// means that there is no code.
static LATIN_CODES: [u8; 256] = [
    0xFF, 0xFF, 0xFF, 0xFF, 0xFF, 0xFF, 0xFF, 0xFF, 0xFF, 0xFF, 0x0A, 0xFF, 0x8A, 0x0D, 0xFF, 0xFF, // 00 to 0F
    0xFF, 0xFF, 0xFF, 0xFF, 0xFF, 0xFF, 0xFF, 0xFF, 0xFF, 0xFF, 0xFF, 0xFF, 0xFF, 0xFF, 0xFF, 0xFF, // 10 to 1F
    0x20, 0x21, 0x22, 0x23, 0x02, 0x25, 0x26, 0x27, 0x28, 0x29, 0x2A, 0x2B, 0x2C, 0x2D, 0x2E, 0x2F, // 20 to 2F
    0x30, 0x31, 0x32, 0x33, 0x34, 0x35, 0x36, 0x37, 0x38, 0x39, 0x3A, 0x3B, 0x3C, 0x3D, 0x3E, 0x3F, // 30 to 3F
    0x00, 0x41, 0x42, 0x43, 0x44, 0x45, 0x46, 0x47, 0x48, 0x49, 0x4A, 0x4B, 0x4C, 0x4D, 0x4E, 0x4F, // 40 to 4F
    0x50, 0x51, 0x52, 0x53, 0x54, 0x55, 0x56, 0x57, 0x58, 0x59, 0x5A, 0xBC, 0xAF, 0xBE, 0x94, 0x11, // 50 to 5F
    0xFF, 0x61, 0x62, 0x63, 0x64, 0x65, 0x66, 0x67, 0x68, 0x69, 0x6A, 0x6B, 0x6C, 0x6D, 0x6E, 0x6F, // 60 to 6F
    0x70, 0x71, 0x72, 0x73, 0x74, 0x75, 0x76, 0x77, 0x78, 0x79, 0x7A, 0xA8, 0xC0, 0xA9, 0xBD, 0xFF, // 70 to 7F
    0xFF, 0xFF, 0xFF, 0xFF, 0xFF, 0xFF, 0xFF, 0xFF, 0xFF, 0xFF, 0xFF, 0xFF, 0xFF, 0xFF, 0xFF, 0xFF, // 80 to 8F
    0xFF, 0xFF, 0xFF, 0xFF, 0xFF, 0xFF, 0xFF, 0xFF, 0xFF, 0xFF, 0xFF, 0xFF, 0xFF, 0xFF, 0xFF, 0xFF, // 90 to 9F
    0xFF, 0x40, 0xFF, 0x01, 0x24, 0x03, 0xFF, 0x5F, 0xFF, 0xFF, 0xFF, 0xFF, 0xFF, 0xFF, 0xFF, 0xFF, // A0 to AF
    0xFF, 0xFF, 0xFF, 0xFF, 0xFF, 0xFF, 0xFF, 0xFF, 0xFF, 0xFF, 0xFF, 0xFF, 0xFF, 0xFF, 0xFF, 0x60, // B0 to BF
    0xFF, 0xFF, 0xFF, 0xFF, 0x5B, 0x0E, 0x1C, 0x09, 0xFF, 0x1F, 0xFF, 0xFF, 0xFF, 0xFF, 0xFF, 0xFF, // C0 to CF
    0xFF, 0x5D, 0xFF, 0xFF, 0xFF, 0xFF, 0x5C, 0xFF, 0x0B, 0xFF, 0xFF, 0xFF, 0x5E, 0xFF, 0xFF, 0x1E, // D0 to DF
    0x7F, 0xFF, 0xFF, 0xFF, 0x7B, 0x0F, 0x1D, 0xFF, 0x04, 0x05, 0xFF, 0xFF, 0x07, 0xFF, 0xFF, 0xFF, // E0 to EF
    0xFF, 0x7D, 0x08, 0xFF, 0xFF, 0xFF, 0x7C, 0xFF, 0x0C, 0x06, 0xFF, 0xFF, 0x7E, 0xFF, 0xFF, 0xFF, // F0 to FF
];

/// How a character is written: as a septet of the main table, or as ESC and a septet of the extension table.
#[derive(Clone, Copy, PartialEq, Eq)]
pub enum Code {
    /// A character of one septet.
    Main(u8),
    /// ESC and one septet.
    Extended(u8),
}

impl Code {
    /// How many septets the code has: 1 or 2.
    pub fn len(self) -> u8
        ensures { result ≡ length (septets_in self) }
    {
        match self {
            Code::Main(_) => 1,
            Code::Extended(_) => 2,
        }
    }
}

// The place of a character in a table.
fn place_in(table: &[char], character: char) -> Option<usize>
    ensures value { result ≡ position (λ other. other == character) table.now }
    ensures range { IfSome result (λ place. place < length table.now) }
{
    table.iter().position(|other| *other == character)
}

#[tactic(auto, unfolding(crate::specs::Alphabet::main_septet_of))]
fn main_septet(character: char) -> Option<u8>
    ensures { result ≡ main_septet_of character }
{
    match place_in(&MAIN_TABLE, character) {
        Some(place) => Some(place as u8),
        None => None,
    }
}

#[tactic(auto, unfolding(crate::specs::Alphabet::extended_septet_of))]
fn extended_septet(character: char) -> Option<u8>
    ensures { result ≡ extended_septet_of character }
{
    match EXTENSION_TABLE.iter().find(|pair| pair.1 == character) {
        Some(pair) => Some(pair.0),
        None => None,
    }
}

/// How a character is written, if it is of the alphabet.
pub fn code_of(character: char) -> Option<Code>
    ensures found { IfSome result (λ code. IsPair code character) }
    ensures only { (code : CodeOf) → IsPair code character → result ≡ Some code }
    ensures exact { result ≡ code_for character }
{
    code_in_tables(character)
}

fn code_in_tables(character: char) -> Option<Code>
    ensures { result ≡ code_for character }
{
    match u8::try_from(character as u32) {
        Ok(latin) => latin_code(latin),
        Err(_) => searched_code(character),
    }
}

// The code of a character below 256.
#[tactic(auto, using(crate::proofs::CodeTables::latin_is))]
fn latin_code(character: u8) -> Option<Code>
    ensures { result ≡ code_for character }
{
    code_of_entry(LATIN_CODES[usize::from(character)])
}

// What an entry of the table says.
fn code_of_entry(entry: u8) -> Option<Code>
    ensures { result ≡ latin_entry entry }
{
    match entry {
        0xFF => None,
        0x80..=0xFE => Some(Code::Extended(entry - 0x80)),
        _ => Some(Code::Main(entry)),
    }
}

// The code of a character by a walk through both tables.
#[tactic(auto, unfolding(crate::specs::Alphabet::code_for))]
fn searched_code(character: char) -> Option<Code>
    requires { character ≢ 27 }
    ensures { result ≡ code_for character }
{
    match main_septet(character) {
        Some(septet) => Some(Code::Main(septet)),
        None => match extended_septet(character) {
            Some(septet) => Some(Code::Extended(septet)),
            None => None,
        },
    }
}

/// The character of a septet of the main table.
#[tactic(auto, unfolding(crate::specs::Alphabet::main_character))]
pub fn character_of(septet: u8) -> char
    requires { septet < 128 }
    ensures { result ≡ main_character septet }
{
    MAIN_TABLE[usize::from(septet)]
}

/// The character that ESC and a septet are read as. It is that of the extension table, else a space for a second ESC,
/// else the character of the main table.
#[tactic(auto, using(crate::proofs::CodeTables::escaped_is))]
pub fn character_after_escape(septet: u8) -> char
    requires { septet < 128 }
    ensures { result ≡ escaped_character septet }
{
    AFTER_ESCAPE[usize::from(septet)]
}
