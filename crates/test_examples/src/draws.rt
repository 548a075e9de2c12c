// Worked examples of draws, as another program gives them.
use patch_picks::Draws;

// The first ten words of a seed's stream, as another program computes them.
const OF_0: &[u32] = &[
    804_192_318,
    3_594_542_985,
    3_904_396_159,
    2_711_947_551,
    3_272_508_460,
    998_218_446,
    2_296_453_912,
    505_049_583,
    1_927_367_832,
    1_097_802_169,
];

const OF_THE_LAST: &[u32] = &[
    577_849_543,
    3_025_045_049,
    2_693_900_732,
    999_971_585,
    19_066_888,
    2_794_726_118,
    1_182_983_420,
    1_788_402_307,
    2_276_627_896,
    2_310_499_488,
];

// This seed's key has its bytes in order.
const IN_ORDER: u64 = 0x0102_0304_0506_0708;

const OF_BYTES_IN_ORDER: &[u32] = &[
    3_779_564_296,
    233_369_677,
    504_565_293,
    151_378_964,
    3_634_627_318,
    2_208_391_981,
    2_463_984_662,
    228_079_351,
    1_786_446_417,
    2_506_130_120,
];

// A seed, the number of the first draw, among how many each is, and the words.
type Drawn<'a> = (u64, u64, u32, &'a [u32]);

const DRAWS: &[Drawn<'static>] = &[
    (0, 0, 1, OF_0),
    (0, 0, 2, OF_0),
    (0, 0, 100, OF_0),
    (0, 0, 9_409, OF_0),
    (0, 0, u32::MAX, OF_0),
    (u64::MAX, 0, 1, OF_THE_LAST),
    (u64::MAX, 0, 2, OF_THE_LAST),
    (u64::MAX, 0, 100, OF_THE_LAST),
    (u64::MAX, 0, 9_409, OF_THE_LAST),
    (u64::MAX, 0, u32::MAX, OF_THE_LAST),
    (IN_ORDER, 0, 1, OF_BYTES_IN_ORDER),
    (IN_ORDER, 0, 2, OF_BYTES_IN_ORDER),
    (IN_ORDER, 0, 100, OF_BYTES_IN_ORDER),
    (IN_ORDER, 0, 9_409, OF_BYTES_IN_ORDER),
    (IN_ORDER, 0, u32::MAX, OF_BYTES_IN_ORDER),
    (0, 15, u32::MAX, &[1_123_945_486, 234_532_562]),
    (0, (1 << 32) - 1, u32::MAX, &[3_807_349_373]),
    // After the last draw the first one comes again.
    (0, u64::MAX, u32::MAX, &[3_567_980_399, 804_192_318]),
    (u64::MAX, 16, u32::MAX, &[3_089_263_663, 2_545_582_257]),
    (u64::MAX, 1 << 36, u32::MAX, &[2_013_668_932]),
    (u64::MAX, u64::MAX, u32::MAX, &[1_704_046_721]),
];

// Whether the draws of a seed from a number on are those of these words, and come again where they are given back.
fn is_drawn(drawn: &Drawn) -> bool {
    let (seed, number, n, words) = *drawn;
    let mut draws = Draws::from_seed(seed);
    draws.go_to(number);
    for word in words {
        if draws.below(n.max(1)) != word.checked_rem(n).unwrap_or(0) {
            return false;
        }
    }
    let place = draws.place();
    draws.go_to(number);
    let again = draws.below(u32::MAX);
    place == number.wrapping_add(words.len() as u64) && words.first() == Some(&again)
}

/// The number of the first row, from 0, whose words aren't drawn.
pub(crate) fn wrong_draw() -> Option<usize> {
    for (i, drawn) in DRAWS.iter().enumerate() {
        if !is_drawn(drawn) {
            return Some(i);
        }
    }
    None
}
