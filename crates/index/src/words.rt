// Little-endian words of eight and of three bytes at a place in a slice, which a caller sees to it that the slice has, and the words of a
// BIC and of a key. Read as here, eight bytes are one load of the machine.
ghost use Rattle.std.specs.Prelude.{◌≡◌, ◌+◌, ◌≤◌, length};
ghost use Rattle.fields.specs.Number.{part};
ghost use Rattle.index.specs.Words.{word, bic_words, key_words};

// The N bytes at a place.
fn bytes_at<const N: usize>(s: &[u8], at: usize) -> [u8; N]
    requires { at + N ≤ length s.now }
    ensures { result ≡ part N at s.now }
{
    s[at..at + N].try_into().unwrap()
}

#[tactic(auto, using(crate::proofs::LittleEndian::word_eight))]
pub fn word_at(s: &[u8], at: usize) -> u64
    requires { at + 8 ≤ length s.now }
    ensures { result ≡ word (part 8 at s.now) }
{
    u64::from_le_bytes(bytes_at(s, at))
}

#[tactic(auto, using(crate::proofs::LittleEndian::word_three))]
pub fn word24_at(s: &[u8], at: usize) -> u64
    requires { at + 3 ≤ length s.now }
    ensures { result ≡ word (part 3 at s.now) }
{
    let [a, b, c] = bytes_at::<3>(s, at);
    u32::from_le_bytes([a, b, c, 0]) as u64
}

pub fn bic_words(bic: &[u8]) -> [u64; 2]
    requires { length bic.now ≡ 11 }
    ensures { result ≡ bic_words bic.now }
{
    [word_at(bic, 0), word24_at(bic, 8)]
}

// A payer's BIC and a padded TxId. Nothing joins their bytes.
pub fn key_words(bic: &[u8], txid: &[u8]) -> [u64; 7]
    requires { (length bic.now ≡ 11) × (length txid.now ≡ 35) }
    ensures { result ≡ key_words bic.now txid.now }
{
    [
        word_at(bic, 0),
        word24_at(bic, 8),
        word_at(txid, 0),
        word_at(txid, 8),
        word_at(txid, 16),
        word_at(txid, 24),
        word24_at(txid, 32),
    ]
}
