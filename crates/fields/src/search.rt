// What a search finds: the first number that passes a test.
ghost use Rattle.std.specs.Prelude.{◌≡◌};
ghost use Rattle.fields.specs.Search.{found_or};

// What was found already, or n if it passes.
pub fn found_or(found: Option<usize>, n: usize, passes: bool) -> Option<usize>
    ensures { result ≡ found_or found n passes }
{
    found.or(passes.then_some(n))
}
