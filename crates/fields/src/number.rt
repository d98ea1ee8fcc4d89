// Big-endian numbers of two, three, four and eight bytes, read from and written to a place in a slice, and whether the bytes at a place
// are zero. A caller sees to it that the field lies within the slice. Two, four and eight bytes are each one load or one store of the
// machine, and three are loaded in parts. There is a function for each width and no trait: std's `from_be_bytes` is a method of each type
// by itself, so that each impl would have these bodies again.
ghost use Rattle.std.specs.Prelude.{◌≡◌, ◌+◌, ◌≤◌, length};
ghost use Rattle.std.proofs.lemmas.List.Edits.{sets};
ghost use Rattle.fields.specs.Number.{part, number_at, bytes_of};
ghost use Rattle.fields.specs.Text.{blank};

// The N bytes at a place.
fn bytes_at<const N: usize>(s: &[u8], at: usize) -> [u8; N]
    requires { at + N ≤ length s.now }
    ensures { result ≡ part N at s.now }
{
    s[at..at + N].try_into().unwrap()
}

pub fn u16_at(s: &[u8], at: usize) -> u16
    requires { at + 2 ≤ length s.now }
    ensures { result ≡ number_at 2 at s.now }
{
    u16::from_be_bytes(bytes_at(s, at))
}

pub fn u24_at(s: &[u8], at: usize) -> u32
    requires { at + 3 ≤ length s.now }
    ensures { result ≡ number_at 3 at s.now }
{
    let [a, b, c] = bytes_at::<3>(s, at);
    u32::from_be_bytes([0, a, b, c])
}

pub fn u32_at(s: &[u8], at: usize) -> u32
    requires { at + 4 ≤ length s.now }
    ensures { result ≡ number_at 4 at s.now }
{
    u32::from_be_bytes(bytes_at(s, at))
}

pub fn u64_at(s: &[u8], at: usize) -> u64
    requires { at + 8 ≤ length s.now }
    ensures { result ≡ number_at 8 at s.now }
{
    u64::from_be_bytes(bytes_at(s, at))
}

// Whether the N bytes at a place are zero.
pub fn blank_at<const N: usize>(s: &[u8], at: usize) -> bool
    requires { at + N ≤ length s.now }
    ensures { result ≡ blank (part N at s.now) }
{
    super::text::blank(&s[at..at + N])
}

pub fn zero_u16_at(s: &[u8], at: usize) -> bool
    requires { at + 2 ≤ length s.now }
    ensures { result ≡ blank (part 2 at s.now) }
{
    blank_at::<2>(s, at)
}

pub fn zero_u64_at(s: &[u8], at: usize) -> bool
    requires { at + 8 ≤ length s.now }
    ensures { result ≡ blank (part 8 at s.now) }
{
    blank_at::<8>(s, at)
}

pub fn put_u16(s: &mut [u8], at: usize, n: u16)
    requires { at + 2 ≤ length s.old }
    ensures { s.new ≡ sets s.old at (bytes_of 2 n) }
{
    s[at..at + 2].copy_from_slice(&n.to_be_bytes());
}

pub fn put_u64(s: &mut [u8], at: usize, n: u64)
    requires { at + 8 ≤ length s.old }
    ensures { s.new ≡ sets s.old at (bytes_of 8 n) }
{
    s[at..at + 8].copy_from_slice(&n.to_be_bytes());
}
