ghost use Rattle.std.specs.Prelude.{◌≡◌, ◌<◌, ◌≤◌};
ghost use Rattle.outside.specs.Choices.{first_drawn, seeded, seed_drawn, any_drawn};

use crate::Chooser;
use rand_pcg::Lcg64Xsh32;
use rand_pcg::rand_core::utils::NextWord;
use std::marker::Model;

/// The chooser that picks the first candidate each time.
#[derive(Clone, Copy, Debug, PartialEq, Eq)]
pub struct FirstChooser;

impl Chooser for FirstChooser {
    ghost draw = { first_drawn };

    fn pick(&mut self, n: u64) -> u64 {
        0
    }
}

/// A chooser that picks by the words of a generator, the PCG with 64 bits of state and words of 32
/// bits in its stream 0. Contracts see it as that generator.
#[derive(Clone, PartialEq, Eq, Drop)]
pub struct SeedChooser {
    generator: Lcg64Xsh32,
}

impl Model for SeedChooser {
    ghost use Rattle.rand_pcg.specs.Lcg.{Lcg};

    ghost Value = { Lcg };

    ghost view = { λ chooser. chooser.generator };

    ghost inverse = { λ generator. record { generator = generator } };
}

impl SeedChooser {
    /// The chooser that the seed begins.
    pub fn new(seed: u64) -> SeedChooser
        ensures { result ≡ seeded seed }
    {
        SeedChooser {
            generator: Lcg64Xsh32::new(seed, 0),
        }
    }
}

impl Chooser for SeedChooser {
    ghost draw = { seed_drawn };

    fn pick(&mut self, n: u64) -> u64 {
        let word = self.generator.next_word();
        ((u128::from(word) * u128::from(n)) >> 32) as u64
    }
}

/// The chooser of a run: the first candidates, or those of a seed.
#[derive(Clone, PartialEq, Eq, Drop)]
pub enum AnyChooser {
    First(FirstChooser),
    Seeded(SeedChooser),
}

impl Chooser for AnyChooser {
    ghost draw = { any_drawn };

    fn pick(&mut self, n: u64) -> u64 {
        match self {
            AnyChooser::First(chooser) => chooser.pick(n),
            AnyChooser::Seeded(chooser) => chooser.pick(n),
        }
    }
}
