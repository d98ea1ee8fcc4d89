// The classes of bytes: each has a test that tells its bytes.
ghost use Rattle.std.specs.Prelude.{◌≡◌, ℕ, Bool};
ghost use Rattle.xml.specs.Bytes.{is_space, is_first, is_name, is_text, is_value};

// A class of bytes.
pub trait Class {
    ghost is: { ℕ → Bool };

    fn has(&self, b: u8) -> bool
        ensures { result ≡ is b };
}

// XML's white space.
#[derive(Clone, Copy)]
pub struct Space;

impl Class for Space {
    ghost is = { is_space };

    #[tactic(auto, unfolding(xml::specs::Bytes::is_space))]
    fn has(&self, b: u8) -> bool {
        matches!(b, b' ' | b'\t' | b'\r' | b'\n')
    }
}

// A name's first byte.
#[tactic(auto, unfolding(xml::specs::Bytes::is_letter, xml::specs::Bytes::is_first))]
pub fn is_first(b: u8) -> bool
    ensures { result ≡ is_first b }
{
    b.is_ascii_alphabetic() | (b == b'_')
}

// 1 at each byte of a name.
static NAMES: [u8; 256] = [
    0, 0, 0, 0, 0, 0, 0, 0, 0, 0, 0, 0, 0, 0, 0, 0, 0, 0, 0, 0, 0, 0, 0, 0, 0, 0, 0, 0, 0, 0, 0, 0,
    0, 0, 0, 0, 0, 0, 0, 0, 0, 0, 0, 0, 0, 1, 1, 0, 1, 1, 1, 1, 1, 1, 1, 1, 1, 1, 1, 0, 0, 0, 0, 0,
    0, 1, 1, 1, 1, 1, 1, 1, 1, 1, 1, 1, 1, 1, 1, 1, 1, 1, 1, 1, 1, 1, 1, 1, 1, 1, 1, 0, 0, 0, 0, 1,
    0, 1, 1, 1, 1, 1, 1, 1, 1, 1, 1, 1, 1, 1, 1, 1, 1, 1, 1, 1, 1, 1, 1, 1, 1, 1, 1, 0, 0, 0, 0, 0,
    0, 0, 0, 0, 0, 0, 0, 0, 0, 0, 0, 0, 0, 0, 0, 0, 0, 0, 0, 0, 0, 0, 0, 0, 0, 0, 0, 0, 0, 0, 0, 0,
    0, 0, 0, 0, 0, 0, 0, 0, 0, 0, 0, 0, 0, 0, 0, 0, 0, 0, 0, 0, 0, 0, 0, 0, 0, 0, 0, 0, 0, 0, 0, 0,
    0, 0, 0, 0, 0, 0, 0, 0, 0, 0, 0, 0, 0, 0, 0, 0, 0, 0, 0, 0, 0, 0, 0, 0, 0, 0, 0, 0, 0, 0, 0, 0,
    0, 0, 0, 0, 0, 0, 0, 0, 0, 0, 0, 0, 0, 0, 0, 0, 0, 0, 0, 0, 0, 0, 0, 0, 0, 0, 0, 0, 0, 0, 0, 0,
];

// The bytes of a name.
#[derive(Clone, Copy)]
pub struct Name;

impl Class for Name {
    ghost is = { is_name };

    fn has(&self, b: u8) -> bool {
        NAMES[b as usize] == 1
    }
}

// The bytes of a text.
#[derive(Clone, Copy)]
pub struct Text;

impl Class for Text {
    ghost is = { is_text };

    #[tactic(auto, unfolding(xml::specs::Bytes::is_text))]
    fn has(&self, b: u8) -> bool {
        !matches!(b, b'<' | b'&')
    }
}

// The bytes of an attribute's value.
#[derive(Clone, Copy)]
pub struct Value;

impl Class for Value {
    ghost is = { is_value };

    #[tactic(auto, unfolding(xml::specs::Bytes::is_value))]
    fn has(&self, b: u8) -> bool {
        !matches!(b, b'<' | b'&' | b'"')
    }
}
