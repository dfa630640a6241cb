//! Texts as the tables of tests have them. `[40 n]` stands for 40 times `n`, and `[3 x#, ]` for `x0, x1, x2, `: each sign `#` is the
//! number of the piece, from 0. A `~` stands for the byte 255, which no token has.

ghost use Rattle.std.specs.Prelude.{IfOk};
ghost use Rattle.goal_model.specs.ModelViews.{model_of};

use goal_model::{Model, ModelRefusal, resolve};
use model_text::read_model;
use std::alloc::{AllocError, Global};
use std::process::Abort;
use std::test::Fail;

/// The two sides of a sign, at the first place where it stands.
pub(crate) fn cut<'t>(text: &'t str, sign: &str) -> Result<(&'t str, &'t str), Fail> {
    Ok(text.split_once(sign).ok_or("a row without its sign")?)
}

/// The three parts of a row.
pub(crate) fn parts_of(row: &str) -> Result<(&str, &str, &str), Fail> {
    let (first, rest) = cut(row, " | ")?;
    let (second, third) = cut(rest, " | ")?;
    Ok((first, second, third))
}

/// A number of a row.
pub(crate) fn number(text: &str) -> Result<usize, Fail> {
    Ok(text.parse::<usize>()?)
}

/// What came of a row is what is due.
pub(crate) fn compare(rt: &impl Abort, name: &str, made: &str, due: &str) {
    assert_eq!(rt; made, due, "{name}");
}

/// What a row has to meet.
pub(crate) fn holds(rt: &impl Abort, name: &str, truth: bool) {
    assert!(rt; truth, "{name}");
}

// A piece with its number.
fn put_numbered(
    alloc: Global,
    text: &mut String,
    piece: &str,
    number: usize,
) -> Result<(), AllocError> {
    let mut is_first = true;
    for part in piece.split("#") {
        if !is_first {
            text.push_str(&format!(in alloc; "{number}")?)?;
        }
        text.push_str(part)?;
        is_first = false;
    }
    Ok(())
}

// A count, a blank and a piece: the piece that many times.
fn put_repeated(alloc: Global, text: &mut String, repeated: &str) -> Result<(), Fail> {
    let (count, piece) = cut(repeated, " ")?;
    for place in 0..number(count)? {
        put_numbered(alloc, text, piece, place)?;
    }
    Ok(())
}

// A text with each piece in brackets written as often as it says, behind what is there.
fn spell_out(alloc: Global, text: &mut String, short: &str) -> Result<(), Fail> {
    for part in short.split("[") {
        match part.split_once("]") {
            None => text.push_str(part)?,
            Some((repeated, rest)) => {
                put_repeated(alloc, text, repeated)?;
                text.push_str(rest)?;
            }
        }
    }
    Ok(())
}

fn byte_of(byte: u8) -> u8 {
    if byte == b'~' { 255 } else { byte }
}

fn bytes_in(alloc: Global, text: &str) -> Result<Vec<u8>, AllocError> {
    let mut bytes = Vec::with_capacity(alloc, text.len())?;
    for byte in text.bytes() {
        bytes.push(byte_of(byte))?;
    }
    Ok(bytes)
}

/// The bytes that a front and a text of a table stand for.
pub(crate) fn bytes_of(alloc: Global, front: &str, short: &str) -> Result<Vec<u8>, Fail> {
    let mut text = String::from_str(alloc, front)?;
    spell_out(alloc, &mut text, short)?;
    Ok(bytes_in(alloc, &text)?)
}

/// What becomes of a text that can be read.
pub(crate) fn resolved(
    rt: &impl Abort,
    alloc: Global,
    bytes: &[u8],
) -> Result<Result<Model, ModelRefusal>, Fail> {
    let raw = read_model(alloc, bytes)?;
    assert!(rt; raw.statements.len() <= 2000);
    Ok(resolve(alloc, &raw))
}

/// The model of a text.
pub(crate) fn model_in(rt: &impl Abort, alloc: Global, bytes: &[u8]) -> Result<Model, Fail> {
    Ok(resolved(rt, alloc, bytes)??)
}
