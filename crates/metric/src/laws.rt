//! Laws of the nearest obstacle: it is unique, and its distance is the least.

ghost use Rattle.std.specs.Prelude.{◌≡◌, ℕ, ℤ, Bool, true, Option};
ghost use Rattle.std.specs.Option.{option_map};
ghost use Rattle.metric.specs.Nearest.{IsLeastDistance, IsNear};
ghost use Rattle.metric.specs.declared.near.Near.{Near};

/// A cell has at most one nearest obstacle: the rule for ties leaves no choice.
pub fn one_nearest()
    ensures { (distance : ℕ → ℕ → ℕ) (test : ℤ → ℤ → Bool) (x y : ℕ) (p q : Option Near)
        → IsNear distance (λ a b. test a b ≡ true) x y p
        → IsNear distance (λ a b. test a b ≡ true) x y q → p ≡ q }
{}

/// The distance of the nearest obstacle is the least distance to an obstacle; where one is none, so
/// is the other.
pub fn nearest_is_least()
    ensures { (distance : ℕ → ℕ → ℕ) (test : ℤ → ℤ → Bool) (x y : ℕ) (near : Option Near)
        → IsNear distance (λ a b. test a b ≡ true) x y near
        → IsLeastDistance distance (λ a b. test a b ≡ true) x y (option_map (λ n. n.dist) near) }
{}
