// The fixed-point cells.
ghost use Rattle.std.specs.Prelude.{◌≡◌};
ghost use Rattle.law.specs.Cells.{step as step_of, Wr};

use quantity::Celsius;

#[derive(Clone, Copy, Debug, PartialEq, Eq)]
pub enum Cell {
    Hg,
    Ga,
    In,
    Sn,
    Zn,
    Al,
    Ag,
}

impl Cell {
    pub const ALL: [Cell; 7] = [
        Cell::Hg,
        Cell::Ga,
        Cell::In,
        Cell::Sn,
        Cell::Zn,
        Cell::Al,
        Cell::Ag,
    ];

    // Its temperature.
    pub fn step(self) -> Celsius
        ensures { result.0 ≡ step_of self }
    {
        match self {
            Cell::Hg => Celsius(-38_8344),
            Cell::Ga => Celsius(29_7646),
            Cell::In => Celsius(156_5985),
            Cell::Sn => Celsius(231_9280),
            Cell::Zn => Celsius(419_5270),
            Cell::Al => Celsius(660_3230),
            Cell::Ag => Celsius(961_7800),
        }
    }

    // Wr in units of 10^-11.
    pub fn reference(self) -> u64
        ensures { result ≡ Wr self }
    {
        match self {
            Cell::Hg => 0_844_142_11_000,
            Cell::Ga => 1_118_138_89_000,
            Cell::In => 1_609_801_85_000,
            Cell::Sn => 1_892_797_68_000,
            Cell::Zn => 2_568_917_30_000,
            Cell::Al => 3_376_008_60_000,
            Cell::Ag => 4_286_420_53_000,
        }
    }
}
