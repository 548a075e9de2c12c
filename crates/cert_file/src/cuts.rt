// Cut records as a file has them.
ghost use Rattle.std.specs.Prelude.{◌≡◌, ◌≤◌, ◌<◌, ◌+◌, ◌*◌, ◌^◌, All, Some};
ghost use Rattle.std.specs.List.{flat_map};
ghost use Rattle.file_bytes.specs.Writing.{Puts};
ghost use Rattle.source_map.specs.Heads.{AreSamples};
ghost use Rattle.cert_file.specs.CutForms.{HasShortFlows, IsBoxSize, IsCutInForm, IsShortFlow, box_size_field, choice_bit, choice_byte, choice_field, cut_form, flow_field};

use cells::{Size, Sizes};
use cut_check::{CutRecord, Flow};
use file_bytes::FileWriter;
use shelf_traits::Shelf;
use source_map::{Version, place_bytes, put_source};

// The size of a box in the file's form.
fn box_size_bytes(size: Size) -> [u8; 6]
    requires { IsBoxSize size }
    ensures { result ≡ box_size_field size }
{
    let [a, b] = (size.w as u16).to_be_bytes();
    let [c, d] = (size.h as u16).to_be_bytes();
    let [e, f] = (size.f as u16).to_be_bytes();
    [a, b, c, d, e, f]
}

// A flow in the file's form.
fn flow_bytes(flow: &Flow) -> [u8; 4]
    ensures bytes { result ≡ flow_field flow.now }
    ensures short { IsShortFlow flow.now }
{
    let [a, b] = flow.x.cast_unsigned().to_be_bytes();
    let [c, d] = flow.y.cast_unsigned().to_be_bytes();
    [a, b, c, d]
}

// A cell of a choice as a bit; none past the end.
fn bit_at(choice: &[bool], i: usize) -> u8
    ensures is { result ≡ choice_bit choice.now i }
    ensures small { result ≤ 1 }
{
    match choice.get(i) {
        Some(bit) => u8::from(*bit),
        None => 0,
    }
}

// A byte of a choice.
fn byte_at(choice: &[bool], j: usize) -> u8
    requires { 8 * j + 7 < 2 ^ 63 }
    ensures { result ≡ choice_byte choice.now j }
{
    let first = 8 * j;
    128 * bit_at(choice, first)
        + 64 * bit_at(choice, first + 1)
        + 32 * bit_at(choice, first + 2)
        + 16 * bit_at(choice, first + 3)
        + 8 * bit_at(choice, first + 4)
        + 4 * bit_at(choice, first + 5)
        + 2 * bit_at(choice, first + 6)
        + bit_at(choice, first + 7)
}

// Puts a choice, eight cells a byte.
fn put_choice<S: Shelf>(file: &mut FileWriter, choice: &[bool], shelf: &mut S, name: &str)
    ensures { Puts name.now (choice_field choice.now)
        (S.state shelf.old) (S.state shelf.new) file.old file.new }
{
    for j in 0..choice.len().div_ceil(8) {
        file.put(&[byte_at(choice, j)], shelf, name);
    }
}

// Puts flows.
fn put_flows<S: Shelf>(file: &mut FileWriter, flows: &[Flow], shelf: &mut S, name: &str)
    ensures put { Puts name.now (flat_map flow_field flows.now)
        (S.state shelf.old) (S.state shelf.new) file.old file.new }
    ensures short { All IsShortFlow flows.now }
{
    for flow in flows {
        file.put(&flow_bytes(flow), shelf, name);
    }
}

// Puts a cut record.
#[tactic(auto, unfolding(crate::specs::CutForms::cut_form))]
pub(crate) fn put_cut<S: Shelf>(
    file: &mut FileWriter,
    version: Version,
    samples: &Sizes,
    cut: &CutRecord,
    shelf: &mut S,
    name: &str,
)
    requires samples { AreSamples version samples.now }
    requires cut { IsCutInForm samples.now cut.now }
    ensures put { Puts name.now (cut_form version samples.now cut.now)
        (S.state shelf.old) (S.state shelf.new) file.old file.new }
    ensures short { HasShortFlows cut.now }
{
    file.put(&place_bytes(cut.placement.rect.corner), shelf, name);
    file.put(&box_size_bytes(cut.placement.rect.size), shelf, name);
    put_source(file, cut.placement.from, samples, version, shelf, name);
    put_choice(file, cut.choice.as_slice(), shelf, name);
    put_flows(file, cut.flows.as_slice(), shelf, name);
}
