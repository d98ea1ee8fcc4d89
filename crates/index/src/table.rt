// Rows of words with chains through them.
ghost use Rattle.std.specs.Prelude.{◌≡◌, ℕ, ◌+◌, ◌<◌, ◌≤◌, ◌++◌, List, [], ◌∷◌, length, get_or, take};
ghost use Rattle.fields.specs.Chains.{Chained};
ghost use Rattle.index.specs.RowChains.{row_buckets, row_bucket, Distinct, first_with};

use std::marker::Model;

#[derive(Drop)]
pub struct Index<const WORDS: usize, const ROWS: usize> {
    rows: [[u64; WORDS]; ROWS],
    heads: [u16; 509],
    links: [u16; ROWS],
    count: usize,
}

impl<const WORDS: usize, const ROWS: usize> Model for Index<WORDS, ROWS> {
    ghost Value = { List (List ℕ) };

    ghost view = { λ x. take x.count x.rows };

    ghost invariant = { λ x. (x.count ≤ ROWS) × (ROWS < 65536)
        × Chained row_buckets (λ i. row_bucket (get_or x.rows i [])) x.count x.heads x.links };
}

fn bucket<const WORDS: usize>(words: &[u64; WORDS]) -> usize
    ensures { (result ≡ row_bucket words.now) × (result < row_buckets) }
{
    let mut sum = 0u64;
    for &w in words {
        sum = sum.wrapping_add(w);
    }
    (sum % 509) as usize
}

impl<const WORDS: usize, const ROWS: usize> Index<WORDS, ROWS> {
    pub fn new() -> Self
        requires { ROWS < 65536 }
        ensures { result ≡ [] }
    {
        Index {
            rows: [[0; WORDS]; ROWS],
            heads: [0; 509],
            links: [0; ROWS],
            count: 0,
        }
    }

    pub fn push(&mut self, words: &[u64; WORDS])
        requires { length self.old < ROWS }
        ensures { self.new ≡ self.old ++ words.now ∷ [] }
    {
        let i = self.count;
        let h = bucket(words);
        self.rows[i] = *words;
        self.links[i] = self.heads[h];
        self.heads[h] = (i + 1) as u16;
        self.count = i + 1;
    }

    pub fn find(&self, words: &[u64; WORDS]) -> Option<usize>
        requires { Distinct self.now }
        ensures { result ≡ first_with words.now self.now }
    {
        let mut at = self.heads[bucket(words)] as usize;
        while 0 < at {
            let i = at - 1;
            if self.rows[i] == *words {
                return Some(i);
            }
            at = self.links[i] as usize;
        }
        None
    }
}
