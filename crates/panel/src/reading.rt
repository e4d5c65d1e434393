// Readings: a field's value scaled to its maximum, as an f32.
ghost use Rattle.std.specs.Prelude.{◌≡◌, true, ◌-◌, ◌^◌, ◌≤◌, ◌<◌};
ghost use Rattle.std.specs.Float.Ieee.{of_bits};
ghost use Rattle.std.specs.Float.{binary32};
ghost use Rattle.std.specs.Float.Ieee.Scale as Scale;
ghost use Rattle.panel.specs.Reading as Reading;
ghost use Rattle.panel.specs.Reading.{reading_listed};

use lbp16::{Refusal, Rule};

// The descriptor's minimum and maximum.
#[derive(Clone, Copy, Debug)]
pub struct Bounds {
    pub minimum: f32,
    pub maximum: f32,
}

// The largest value of a width.
fn full(width: u32) -> u32
    requires { width ≤ 24 }
    ensures { (result ≡ Reading.full width) × (result < 2 ^ 24) }
{
    (1u32 << width) - 1
}

fn unreadable(kind: u32, width: u32, value: u64) -> bool
    ensures { result ≡ Reading.unreadable kind width value }
{
    if (kind != 2) | (width == 0) | (24 < width) {
        return true;
    }
    (full(width) as u64) < value
}

// Whether these are the bits of a finite float: seen before a float is made of them.
fn finite_bits(bits: u32) -> bool
    ensures { result ≡ Scale.finite (of_bits binary32 bits) }
{
    bits / 8388608 % 256 != 255
}

fn finite(x: f32) -> bool
    ensures { result ≡ Scale.finite x }
{
    (x < f32::from_bits(0x7F80_0000)) & (f32::from_bits(0xFF80_0000) < x)
}

fn bounds_of(minimum: u32, maximum: u32) -> Bounds
    requires { (Scale.finite (of_bits binary32 minimum) ≡ true) × (Scale.finite (of_bits binary32 maximum) ≡ true) }
    ensures { result ≡ Reading.bounds_of minimum maximum }
{
    Bounds {
        minimum: f32::from_bits(minimum),
        maximum: f32::from_bits(maximum),
    }
}

fn scaled(width: u32, value: u32, bounds: Bounds) -> Result<f32, Refusal>
    requires { (width ≤ 24) × (value < 2 ^ 24) }
    ensures { reading_listed result ≡ Reading.scaled width value bounds }
{
    let maximum = bounds.maximum;
    let raw = value as f32;
    let most = full(width) as f32;
    let product = raw * maximum;
    if finite(product) {
        Ok(product / most)
    } else {
        Err(Rule::ReadingInfinite.at(0))
    }
}

// The reading of a field of this data type and width, with the bounds as the bits that the table holds.
pub fn reading(
    kind: u32,
    width: u32,
    value: u64,
    minimum: u32,
    maximum: u32,
) -> Result<f32, Refusal>
    ensures { reading_listed result ≡ Reading.reading kind width value minimum maximum }
{
    if unreadable(kind, width, value) {
        return Err(Rule::ReadingField.at(0));
    }
    if !(finite_bits(minimum) & finite_bits(maximum)) {
        return Err(Rule::ReadingBounds.at(0));
    }
    let bounds = bounds_of(minimum, maximum);
    if !(bounds.minimum < bounds.maximum) {
        return Err(Rule::ReadingBounds.at(0));
    }
    scaled(width, value as u32, bounds)
}
