// One byte of the input.
ghost use Rattle.std.specs.Prelude.{◌≡◌, drop};
ghost use Rattle.meaning.specs.Outcome.{in_range};

// Whether a byte is left at `at` and is within lo and hi.
pub fn within(input: &[u8], at: usize, lo: u8, hi: u8) -> bool
    ensures { result ≡ in_range lo hi (drop at input.now) }
{
    input.get(at).is_some_and(|byte| (lo..=hi).contains(byte))
}
