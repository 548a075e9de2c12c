// Draws: words of a stream, by their number.
ghost use Rattle.std.specs.Prelude.{◌≡◌, ◌<◌, ◌+◌, ◌%◌, ◌^◌};
ghost use Rattle.patch_picks.specs.Draws.{DrawState, draw};

use rand_chacha::ChaCha8Rng;
use rand_core::SeedableRng;
use rand_core::utils::NextWord;
use std::marker::Model;

/// The draws of a seed, and the number of the next one.
#[derive(Drop)]
pub struct Draws {
    seed: u64,
    stream: ChaCha8Rng,
}

impl Model for Draws {
    ghost use Rattle.patch_picks.specs.Draws.{DrawState, IsStreamAt};

    ghost Value = { DrawState };

    ghost view = { λ a. record { seed = a.seed; place = a.stream.word_pos } };

    ghost invariant = { λ a. IsStreamAt a.seed a.stream };
}

impl Draws {
    /// The draws of a seed, from number 0 on.
    pub fn from_seed(seed: u64) -> Draws
        ensures { result ≡ record { seed = seed; place = 0 } }
    {
        // The seed, most significant byte first, and then zeros.
        let b = seed.to_be_bytes();
        let key = [
            b[0], b[1], b[2], b[3], b[4], b[5], b[6], b[7], 0, 0, 0, 0, 0, 0, 0, 0, 0, 0, 0, 0, 0,
            0, 0, 0, 0, 0, 0, 0, 0, 0, 0, 0,
        ];
        let stream = ChaCha8Rng::from_seed(key);
        Draws { seed, stream }
    }

    /// The next draw among n entries, from 0 to n - 1. After number 2^64 - 1 the next one is number 0.
    pub fn below(&mut self, n: u32) -> u32
        requires { 0 < n }
        ensures drawn { result ≡ draw self.old.seed self.old.place n }
        ensures below { result < n }
        ensures next { self.new ≡ record self.old { place = (self.old.place + 1) % 2 ^ 64 } }
    {
        let word = self.stream.next_word();
        // The stream itself goes on to 2^68 words.
        if self.stream.get_word_pos() >= 1 << 64 {
            self.stream.set_word_pos(0);
        }
        word % n
    }

    /// The number of the next draw.
    pub fn place(&self) -> u64
        ensures { result ≡ self.now.place }
    {
        self.stream.get_word_pos() as u64
    }

    /// Lets the draw of a number come next, as after a draw that is given back.
    pub fn go_to(&mut self, place: u64)
        ensures { self.new ≡ record self.old { place = place } }
    {
        self.stream.set_word_pos(u128::from(place));
    }
}
