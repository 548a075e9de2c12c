// The tables of roots of one, and of the halves of one over them.
ghost use Rattle.std.specs.Prelude.{◌≡◌, ◌≤◌, IfOk, length};
ghost use Rattle.cyclic_products.specs.Splits.{table_of};

use crate::residues::{LAST, reduced, times};
use std::alloc::{AllocError, Global};

// Square roots: of -1, of that root, and so on.
pub(crate) const ROOTS: [u64; 25] = [
    0x0001_0000_0000_0000,
    0xffff_fffe_ff00_0001,
    0xefff_ffff_0000_0001,
    0x0000_3fff_ffff_c000,
    0x0000_0080_0000_0000,
    0xf800_07ff_0800_0001,
    0xbf79_143c_e60c_a966,
    0x1905_d02a_5c41_1f4e,
    0x9d8f_2ad7_8bfe_d972,
    0x0653_b480_1da1_c8cf,
    0xf2c3_5199_959d_fcb6,
    0x1544_ef23_35d1_7997,
    0xe0ee_0993_10bb_a1e2,
    0xf6b2_cffe_2306_baac,
    0x54df_9630_bf79_450e,
    0xabd0_a6e8_aa3d_8a0e,
    0x8128_1a7b_05f9_beac,
    0xfbd4_1c6b_8caa_3302,
    0x30ba_2ecd_5e93_e76d,
    0xf502_aef5_3232_2654,
    0x4b2a_18ad_e672_46b5,
    0xea9d_5a13_36fb_c98b,
    0x86cd_cc31_c307_e171,
    0x4bba_f597_6ecf_efd8,
    0xed41_d05b_78d6_e286,
];

// One over each of them.
pub(crate) const INVERSES: [u64; 25] = [
    0xfffe_ffff_0000_0001,
    0x0000_00ff_ffff_ff00,
    0x0000_0010_0000_0000,
    0xffff_fffe_fffc_0001,
    0xfdff_ffff_0000_0001,
    0xffef_ffff_0000_0011,
    0x1d62_e30f_a4a4_eeb0,
    0x3de1_9c67_cf49_6a74,
    0x3b9a_e9d1_d8d8_7589,
    0x76a4_0e08_66a8_e50d,
    0x9af0_1e43_1fbd_6ea0,
    0x3712_791d_9eb0_314a,
    0x4097_30a1_895a_dfb6,
    0x158e_e068_c824_1329,
    0x6d34_1b1c_9a04_ed19,
    0xcc9e_5a57_b834_3b3f,
    0x22e1_fbf0_3f8b_95d6,
    0x46a2_3c48_234c_7df9,
    0xef88_5696_9fe6_ed7b,
    0xa520_08ac_564a_2368,
    0xd46e_5a4c_3645_8c11,
    0x4bb9_aee3_72cf_655e,
    0x10eb_8452_6381_4db7,
    0xc01f_93fc_71bb_0b9b,
    0xea52_f593_bb20_759a,
];

// The table of 2^levels numbers with this first one, by a ladder.
pub(crate) fn table(
    alloc: Global,
    levels: u32,
    first: u64,
    ladder: &[u64],
) -> Result<Vec<u64>, AllocError>
    requires { levels ≤ length ladder.now }
    ensures { IfOk result (λ table. table.items ≡ table_of LAST first ladder.now levels) }
{
    let mut table = Vec::new(alloc);
    table.push(first)?;
    'levels: for level in 0..levels as usize {
        let step = ladder[level];
        let whole = table.len();
        'numbers: for i in 0..whole {
            let number = reduced(times(table[i], step));
            table.push(number)?;
        }
    }
    Ok(table)
}
