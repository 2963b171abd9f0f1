//! The figures at the edges of the step tables.

ghost use Rattle.std.specs.Prelude.{◌≡◌};
ghost use Rattle.contracts.specs.Steps.{shau_step, shag_step};

/// The last imbalance at which a price stands, and the first of each step.
pub fn edges_stand()
    ensures gold { (shau_step 400 ≡ 0) × (shau_step 401 ≡ 10) × (shau_step 3500 ≡ 20) × (shau_step 6000 ≡ 30) × (shau_step 10000 ≡ 40) }
    ensures silver { (shag_step 600 ≡ 0) × (shag_step 601 ≡ 2) × (shag_step 3000 ≡ 4) × (shag_step 5000 ≡ 8) × (shag_step 8000 ≡ 16) }
{}
