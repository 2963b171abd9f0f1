//! Shanghai silver.

ghost use Rattle.contracts.specs.Steps.{shag_step};
ghost use Rattle.std.proofs.Common.{leb-true, refl, rules};

use crate::fixing::FixingContract;
use crate::quoted::QuotedContract;
use measures::{Fen, Kg, Lots, Ticks};

/// Silver: a lot is fifteen kilograms, a tick 1 yuan a kilogram.
#[derive(Clone, Copy, Debug)]
pub struct Shag;

impl QuotedContract for Shag {
    const LOT_WEIGHT: Kg = Kg(15);

    const FEN: Fen = Fen(1_500);

    const MARGIN: Fen = Fen(150);

    const LARGEST: Lots = Lots(40_000);

    ghost LOT_WEIGHT = { record { 0 = 15 } };

    ghost FEN = { record { 0 = 1500 } };

    ghost MARGIN = { record { 0 = 150 } };

    ghost LARGEST = { record { 0 = 40000 } };

    ghost weight_low = { leb-true _ _ refl };

    ghost weight_high = { leb-true _ _ refl };

    ghost worth_high = { leb-true _ _ refl };

    ghost margin_low = { leb-true _ _ refl };

    ghost margin_high = { leb-true _ _ refl };

    ghost largest_low = { leb-true _ _ refl };

    ghost largest_high = { leb-true _ _ refl };
}

impl FixingContract for Shag {
    const THRESHOLD: Lots = Lots(600);

    ghost THRESHOLD = { record { 0 = 600 } };

    ghost step = { shag_step };

    ghost threshold_high = { Prim.search rules };

    ghost step_none = { Prim.search rules };

    ghost step_low = { Prim.search rules };

    ghost step_high = { Prim.search rules };

    fn step_at(imbalance: Lots) -> Ticks {
        let ticks = match imbalance.0 {
            0..=600 => 0,
            601..=2_999 => 2,
            3_000..=4_999 => 4,
            5_000..=7_999 => 8,
            _ => 16,
        };
        Ticks(ticks)
    }
}
