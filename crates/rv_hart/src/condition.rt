//! When a branch is taken (unprivileged manual, "Conditional Branches").

ghost use Rattle.std.specs.Prelude.{◌≡◌};
ghost use Rattle.rv_model.specs.Conditions.{holds};

use rv_model::Condition;

/// Whether two numbers meet a condition.
pub fn meets(condition: Condition, a: u64, b: u64) -> bool
    ensures { result ≡ holds condition a b }
{
    match condition {
        Condition::Equal => a == b,
        Condition::Different => a != b,
        Condition::Below => a.cast_signed() < b.cast_signed(),
        Condition::NotBelow => a.cast_signed() >= b.cast_signed(),
        Condition::BelowUnsigned => a < b,
        Condition::NotBelowUnsigned => a >= b,
    }
}
