//! What every sharing policy is held to.

ghost use Rattle.std.specs.Prelude.{◌≡◌, ℕ, ◌+◌, ◌<◌, ◌≤◌, true, false};
ghost use Rattle.sharing.specs.Shares.{in_bounds, below};

use measures::Lots;

/// A sharing policy. What it means is, for a number of Fixing Members and an excess, the lots of each member's place.
pub trait SharingPolicy {
    ghost share: { Self → ℕ → ℕ → ℕ → ℕ };

    ghost told: { Self → ℕ → ℕ → Self };

    // Members and excess stay two numbers: the shares are a sum over the one and a part of the other, and a struct of both is no plainer.
    /// The lots of one place.
    fn share_of(&self, members: u32, excess: Lots, place: u32) -> Lots
        ensures { result.0 ≡ share self.now members excess.0 place };

    /// Tells the policy of a fix.
    fn tell(&mut self, members: u32, excess: Lots)
        ensures { self.new ≡ told self.old members excess.0 };

    ghost whole: { (p : Self) (n q : ℕ) → in_bounds n q ≡ true → below n (share p n q) ≡ q };

    ghost level: { (p : Self) (n q i j : ℕ) → in_bounds n q ≡ true → i < n → j < n → share p n q i ≤ share p n q j + 1 };

    ghost outside: { (p : Self) (n q i : ℕ) → in_bounds n q ≡ false → share p n q i ≡ 0 };

    ghost beyond: { (p : Self) (n q i : ℕ) → n ≤ i → share p n q i ≡ 0 };

    ghost unmoved: { (p : Self) (n q : ℕ) → in_bounds n q ≡ false → told p n q ≡ p };
}
