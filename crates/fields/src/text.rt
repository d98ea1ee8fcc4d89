// A field that is text padded with zero bytes, and two fields compared byte by byte.
ghost use Rattle.std.specs.Prelude.{◌≡◌, ◌≤◌, length};
ghost use Rattle.fields.specs.Text.{blank, value_length, unpadded, same};

// Whether all bytes of s are zero. All are looked at, sixteen at a time on the machine.
pub fn blank(s: &[u8]) -> bool
    ensures { result ≡ blank s.now }
{
    let mut zeros = true;
    for &b in s {
        zeros &= b == 0;
    }
    zeros
}

// The value of a padded field: the part of s before its trailing zeros.
pub fn unpadded(s: &[u8]) -> &[u8]
    ensures { result.now ≡ unpadded s.now }
{
    let mut value = s;
    while let [rest @ .., 0] = value {
        value = rest;
    }
    value
}

// All bytes are looked at: fields differ late as often as early.
pub fn same_bytes(a: &[u8], b: &[u8]) -> bool
    ensures { result ≡ same a.now b.now }
{
    if a.len() != b.len() {
        return false;
    }
    let mut equal = true;
    for (x, y) in a.iter().zip(b) {
        equal &= x == y;
    }
    equal
}

// Fills dst with the bytes of src, which are as many.
pub fn copy(src: &[u8], dst: &mut [u8])
    requires { length src.now ≡ length dst.old }
    ensures { dst.new ≡ src.now }
{
    dst.copy_from_slice(src);
}
