// Whether a row of a section has an earlier row's BIC. The BICs looked at so far are kept as a book's are, so that only those of one
// bucket are compared (`Index`). What is promised says nothing of words or buckets: `bic_among` asks each earlier row. A file whose BICs
// share one bucket costs what comparing all with all costs.
ghost use Rattle.std.specs.Prelude.{◌≡◌, ◌+◌, ◌*◌, ◌≤◌, length};
ghost use Rattle.dayrows.specs.Repeats.{bic_repeats};

use index::{Index, words};

pub fn bic_repeats(f: &[u8], start: usize, width: usize, n: usize) -> bool
    requires { (11 ≤ width) × (n ≤ 64) × (start + width * n ≤ length f.now) }
    ensures { result ≡ bic_repeats start width n f.now }
{
    let mut seen = Index::<2, 64>::new();
    for i in 0..n {
        let at = start + width * i;
        let bic = words::bic_words(&f[at..at + 11]);
        if seen.find(&bic).is_some() {
            return true;
        }
        seen.push(&bic);
    }
    false
}
