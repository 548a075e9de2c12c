// Numbers drawn from a seed.

/// Numbers that follow from a seed, one after another, by the method of Steele, Lea and Flood
/// ("Fast splittable pseudorandom number generators", 2014).
#[derive(Drop)]
pub struct Dice {
    state: u64,
}

impl Dice {
    /// The draws of one case.
    pub fn of(seed: u64, case: u64) -> Dice {
        let mut first = Dice { state: seed };
        let state = first.draw() ^ case.wrapping_mul(0x9e37_79b9_7f4a_7c15);
        Dice { state }
    }

    /// The next number.
    pub fn draw(&mut self) -> u64 {
        self.state = self.state.wrapping_add(0x9e37_79b9_7f4a_7c15);
        let a = self.state;
        let b = (a ^ (a >> 30)).wrapping_mul(0xbf58_476d_1ce4_e5b9);
        let c = (b ^ (b >> 27)).wrapping_mul(0x94d0_49bb_1331_11eb);
        c ^ (c >> 31)
    }

    /// A number below `n`; 0 where `n` is 0.
    pub fn below(&mut self, n: usize) -> usize {
        self.draw().checked_rem(n as u64).unwrap_or(0) as usize
    }

    /// One of some bytes.
    pub fn byte(&mut self, bytes: &[u8]) -> u8 {
        let i = self.below(bytes.len());
        bytes.get(i).copied().unwrap_or(0)
    }

    /// One of a list of texts.
    pub fn text(&mut self, texts: &[&'static str]) -> &'static str {
        let i = self.below(texts.len());
        texts.get(i).copied().unwrap_or("")
    }
}
