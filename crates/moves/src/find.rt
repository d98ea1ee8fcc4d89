// What a cover is asked about.
ghost use Rattle.std.specs.Prelude.{◌≡◌};
ghost use Rattle.rules.specs.Find.{is_open};

use rules::Cover;

// Held or open debit.
pub fn is_open(c: Cover) -> bool
    ensures { result ≡ is_open c }
{
    (c.held != 0) | (c.debit != 0)
}
