// Whether a list of numbers rises strictly.
ghost use Rattle.std.specs.Prelude.{◌≡◌};
ghost use Rattle.model.specs.Resets.{rises};

// Each number is above the one before it.
pub fn rise(resets: &[u64]) -> bool
    ensures { result ≡ rises resets.now }
{
    resets.is_sorted_by(|before, next| before < next)
}
