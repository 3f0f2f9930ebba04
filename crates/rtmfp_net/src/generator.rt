//! Random bytes of a generator.
ghost use Rattle.std.specs.Prelude.{◌≡◌, None, Some};
ghost use Rattle.rtmfp_host.specs.Drawing.{DrawsFrom};
ghost use Rattle.rtmfp_host.specs.Faults.{CountsDrawn};
ghost use Rattle.rand_chacha.specs.ChaCha.{of_seed};

use rand_chacha::ChaCha20Rng;
use rand_core::{Rng, SeedableRng};
use rtmfp_host::{Drawn, Entropy};
use std::random::RandomSource;

/// A generator over ChaCha with 20 rounds, keyed by the machine's random source. Where that failed
/// it holds none, and each draw fails.
#[derive(Drop)]
pub struct Generator {
    generator: Option<ChaCha20Rng>,
    faults: u64,
}

impl Generator {
    ghost use Rattle.rtmfp_net.specs.Generating.{held, generator_faults};

    /// The generator of a key.
    pub fn of_key(key: [u8; 32]) -> Generator
        ensures held { held result ≡ Some (of_seed key) }
        ensures faults { generator_faults result ≡ 0 }
    {
        Generator {
            generator: Some(ChaCha20Rng::from_seed(key)),
            faults: 0,
        }
    }

    /// The generator of a key that the machine's random source gives.
    pub fn keyed(machine: &impl RandomSource) -> Generator
        ensures { generator_faults result ≡ 0 }
    {
        let mut key = [0; 32];
        match machine.fill_bytes(&mut key) {
            Ok(()) => Generator::of_key(key),
            Err(_) => Generator::missing(),
        }
    }

    /// No generator: each draw fails.
    pub fn missing() -> Generator
        ensures held { held result ≡ None }
        ensures faults { generator_faults result ≡ 0 }
    {
        Generator {
            generator: None,
            faults: 0,
        }
    }
}

impl Entropy for Generator {
    ghost use Rattle.rtmfp_net.specs.Generating.{generator_seen, generator_faults, held, TakesNext};

    ghost seen = { generator_seen };

    fn draw(&mut self, out: &mut [u8; 64]) -> Drawn
        ensures block { DrawsFrom None None result out.new }
        ensures faults { CountsDrawn result (generator_faults self.old)
            (generator_faults self.new) }

        // The block is the next 64 bytes of the generator's stream.
        ensures next { TakesNext (held self.old) (held self.new) result out.new }
    {
        match &mut self.generator {
            Some(generator) => {
                generator.fill_bytes(out);
                Drawn::Done
            }
            None => {
                self.faults = self.faults.saturating_add(1);
                Drawn::Failed
            }
        }
    }
}
