// Purity of the platinum, by the ratios at mercury, gallium and silver, 0 where a cell was not measured.
#![tactic(auto)]

ghost use Rattle.std.specs.Prelude.{◌≡◌};
ghost use Rattle.purity.specs.Purity.{by_gallium_or_mercury, by_silver, pure};

use quantity::Ratio;

const LEAST_GALLIUM: u64 = 1_118_070_000;

const MOST_MERCURY: u64 = 844_235_000;

const LEAST_SILVER: u64 = 4_284_400_000;

// Whether the relation at gallium or that at mercury is met. One of them is enough.
pub fn by_gallium_or_mercury(mercury: Ratio, gallium: Ratio) -> bool
    ensures { result ≡ by_gallium_or_mercury mercury.0 gallium.0 }
{
    let by_gallium = LEAST_GALLIUM <= gallium.0;
    let by_mercury = (0 < mercury.0) & (mercury.0 <= MOST_MERCURY);
    by_gallium | by_mercury
}

// Whether the relation at silver is met.
pub fn by_silver(silver: Ratio) -> bool
    ensures { result ≡ by_silver silver.0 }
{
    LEAST_SILVER <= silver.0
}

// Whether the purity relations are met. Silver is asked for where the subrange goes that far.
pub fn is_pure(to_silver: bool, mercury: Ratio, gallium: Ratio, silver: Ratio) -> bool
    ensures { result ≡ pure to_silver mercury.0 gallium.0 silver.0 }
{
    by_gallium_or_mercury(mercury, gallium) & (!to_silver | by_silver(silver))
}
