ghost use Rattle.std.specs.Prelude.{◌≡◌, ◌^◌, ◌<◌, ℕ, IfSome, IfNone, decimal};

/// The number of up to 64 bits that a text spells, without a sign and without leading zeros.
pub(crate) fn decimal_of(text: &str) -> Option<u64>
    ensures some { IfSome result (λ n. (n < 2 ^ 64) × (text.now ≡ decimal n)) }
    ensures none { IfNone result ((n : ℕ) → n < 2 ^ 64 → text.now ≡ decimal n → ⊥) }
{
    let n = text.parse::<u64>().ok()?;
    let mut digits = itoa::Buffer::new();
    if digits.format(n) == text {
        Some(n)
    } else {
        None
    }
}
