//! Shanghai gold.

ghost use Rattle.contracts.specs.Steps.{shau_step};
ghost use Rattle.std.proofs.Common.{leb-true, refl, rules};

use crate::fixing::FixingContract;
use crate::quoted::QuotedContract;
use measures::{Fen, Kg, Lots, Ticks};

/// Gold: a lot is a kilogram, a tick 0.01 yuan a gram.
#[derive(Clone, Copy, Debug)]
pub struct Shau;

impl QuotedContract for Shau {
    const LOT_WEIGHT: Kg = Kg(1);

    const FEN: Fen = Fen(1_000);

    const MARGIN: Fen = Fen(60);

    const LARGEST: Lots = Lots(10_000);

    ghost LOT_WEIGHT = { record { 0 = 1 } };

    ghost FEN = { record { 0 = 1000 } };

    ghost MARGIN = { record { 0 = 60 } };

    ghost LARGEST = { record { 0 = 10000 } };

    ghost weight_low = { leb-true _ _ refl };

    ghost weight_high = { leb-true _ _ refl };

    ghost worth_high = { leb-true _ _ refl };

    ghost margin_low = { leb-true _ _ refl };

    ghost margin_high = { leb-true _ _ refl };

    ghost largest_low = { leb-true _ _ refl };

    ghost largest_high = { leb-true _ _ refl };
}

impl FixingContract for Shau {
    const THRESHOLD: Lots = Lots(400);

    ghost THRESHOLD = { record { 0 = 400 } };

    ghost step = { shau_step };

    ghost threshold_high = { Prim.search rules };

    ghost step_none = { Prim.search rules };

    ghost step_low = { Prim.search rules };

    ghost step_high = { Prim.search rules };

    fn step_at(imbalance: Lots) -> Ticks {
        let ticks = match imbalance.0 {
            0..=400 => 0,
            401..=3_499 => 10,
            3_500..=5_999 => 20,
            6_000..=9_999 => 30,
            _ => 40,
        };
        Ticks(ticks)
    }
}
