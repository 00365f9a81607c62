//! Texts joined in many shapes: each call answers as for the text of the same units in one list.

ghost use Rattle.std.specs.Prelude.{◌<◌, ◌≤◌, length};

use caja_units::{Memory, Units};
use std::alloc::Global;
use std::test::Fail;

/// How a text grows by a piece.
#[derive(Clone, Copy, Debug)]
enum Shape {
    Behind,
    Before,
    BothSides,
    /// Half of the way behind, then doubled.
    Doubled,
    /// Two texts that grow by themselves are joined.
    InHalves,
}

static SHAPES: [(Shape, usize); 9] = [
    (Shape::Behind, 1),
    (Shape::Behind, 12),
    (Shape::Behind, 90),
    (Shape::Before, 1),
    (Shape::Before, 12),
    (Shape::BothSides, 9),
    (Shape::BothSides, 70),
    (Shape::Doubled, 12),
    (Shape::InHalves, 30),
];

/// Digits, letters, underscores, signs that a literal escapes, and both kinds of surrogates.
static ALPHABET: [u16; 12] = [48, 49, 95, 95, 97, 97, 97, 60, 34, 0x100, 0xD83D, 0xDE00];

/// Numbers that look drawn, the same in each run.
#[derive(Drop)]
struct Numbers {
    state: u64,
}

impl Numbers {
    fn below(&mut self, bound: usize) -> usize
        requires { 0 < bound }
        ensures { result < bound }
    {
        self.state = self
            .state
            .wrapping_mul(6_364_136_223_846_793_005)
            .wrapping_add(1_442_695_040_888_963_407);
        (self.state >> 33) as usize % bound
    }

    fn unit(&mut self) -> u16 {
        let place = self.below(12);
        ALPHABET.get(place).copied().unwrap_or(95)
    }
}

/// A text, and its units in one list.
#[derive(Drop)]
struct Sample {
    text: Units,
    units: Vec<u16>,
}

impl Sample {
    fn drawn(alloc: Global, numbers: &mut Numbers, most: usize) -> Result<Sample, Memory> {
        let mut units = Vec::new(alloc);
        for _ in 0..numbers.below(most.saturating_add(1).max(1)) {
            units.push(numbers.unit())?;
        }
        let text = Units::from_units(alloc, &units)?;
        Ok(Sample { text, units })
    }

    fn joined(&self, alloc: Global, behind: &Sample) -> Result<Sample, Memory> {
        let mut units = Vec::from_slice(alloc, &self.units)?;
        units.extend_from_slice(&behind.units)?;
        let text = self.text.join(alloc, &behind.text)?;
        Ok(Sample { text, units })
    }

    fn grown(&self, alloc: Global, shape: Shape, piece: &Sample) -> Result<Sample, Memory> {
        match shape {
            Shape::Behind | Shape::InHalves => self.joined(alloc, piece),
            Shape::Before => piece.joined(alloc, self),
            Shape::BothSides => piece.joined(alloc, self)?.joined(alloc, piece),
            Shape::Doubled => self.joined(alloc, piece)?.joined(alloc, self),
        }
    }
}

fn written(alloc: Global, text: &Units) -> Result<Vec<u8>, Memory> {
    let mut out = Vec::new(alloc);
    text.push_utf8(&mut out)?;
    Ok(out)
}

/// Whether the units are read alike, one by one and as a whole.
fn are_read_alike(alloc: Global, text: &Units, flat: &Units) -> Result<bool, Memory> {
    for i in 0..flat.len() + 2 {
        if text.at(i) != flat.at(i) {
            return Ok(false);
        }
    }
    let bytes = written(alloc, text)?;
    let literal = text.to_ascii_literal(alloc)?;
    Ok(
        text.len() == flat.len()
            && bytes == written(alloc, flat)?
            && literal == flat.to_ascii_literal(alloc)?
            && text.canonical_index() == flat.canonical_index()
            && text.ends_hidden() == flat.ends_hidden(),
    )
}

/// Whether two texts compare alike with a third one.
fn compare_alike(text: &Units, flat: &Units, other: &Units) -> bool {
    text.same(other) == flat.same(other)
        && other.same(text) == other.same(flat)
        && text.before(other) == flat.before(other)
        && other.before(text) == other.before(flat)
}

/// Whether parts of the two texts are the same, and stand at the same places.
fn have_the_same_parts(
    alloc: Global,
    text: &Units,
    flat: &Units,
    numbers: &mut Numbers,
) -> Result<bool, Memory> {
    if text.len() != flat.len() {
        return Ok(false);
    }
    let to = numbers.below(flat.len() + 1);
    let from = numbers.below(to + 1);
    let part = text.slice(alloc, from, to)?;
    let wanted = flat.slice(alloc, from, to)?;
    let start = numbers.below(flat.len() + 1);
    Ok(
        part.same(&wanted)
            && text.index_of(&part, start) == flat.index_of(&wanted, start)
            && compare_alike(text, flat, &part)
            && part.index_of(text, 0) == wanted.index_of(flat, 0),
    )
}

fn answers_alike(
    alloc: Global,
    sample: &Sample,
    last: &Sample,
    numbers: &mut Numbers,
) -> Result<bool, Memory> {
    let flat = Units::from_units(alloc, &sample.units)?;
    let copy = sample.text.copy(alloc)?;
    Ok(
        are_read_alike(alloc, &copy, &flat)?
            && compare_alike(&copy, &flat, &flat)
            && compare_alike(&copy, &flat, &copy)
            && compare_alike(&copy, &flat, &last.text)
            && have_the_same_parts(alloc, &copy, &flat, numbers)?,
    )
}

/// Lets a text grow in a shape by pieces of at most so many units, and gives the step after which a call answered otherwise than
/// for the units in one list.
fn first_other_answer(
    alloc: Global,
    shape: Shape,
    most: usize,
    numbers: &mut Numbers,
) -> Result<Option<usize>, Memory> {
    let mut sample = Sample::drawn(alloc, numbers, most)?;
    let mut half = Sample::drawn(alloc, numbers, most)?;
    for step in 0..60usize {
        let piece = Sample::drawn(alloc, numbers, most)?;
        let grown = sample.grown(alloc, shape, &piece)?;
        if step % 6 == 5 && !answers_alike(alloc, &grown, &sample, numbers)? {
            return Ok(Some(step));
        }
        sample = grown;
        half = piece.joined(alloc, &half)?;
        if matches!(shape, Shape::InHalves) && step % 20 == 19 {
            sample = half.joined(alloc, &sample)?;
        }
        if sample.units.len() > 3000 {
            sample = half.joined(alloc, &piece)?;
        }
    }
    Ok(None)
}

#[test]
fn joined_texts_answer_as_flat_ones(rt: HostRuntime) -> Result<(), Fail> {
    let mut numbers = Numbers { state: 2026 };
    for (shape, most) in SHAPES.iter() {
        let other = first_other_answer(rt.alloc(), *shape, *most, &mut numbers)?;
        assert!(rt; other.is_none(), "{shape:?} by {most}: step {other:?}");
    }
    Ok(())
}
