// The words of a command: marks, widths, methods and bytes.
use crate::failure::Failure;
use readings::method::Method;
use std::alloc::Global;

pub(crate) fn marks_of(heap: Global, words: &[&str]) -> Result<Vec<u16>, Failure> {
    words
        .iter()
        .map(|word| -> Result<u16, Failure> { number(word) })
        .try_collect(heap)
}

pub(crate) fn number(word: &str) -> Result<u16, Failure> {
    word.parse::<u16>()
        .map_err(|_| "a mark or a width is a number up to 65,535".into())
}

pub(crate) fn method(word: &str) -> Result<Method, Failure> {
    Method::try_from(number(word)?).map_err(|_| "the methods are 1 and 2".into())
}

// The bytes that a text spells, two hexadecimal digits each; spaces between digits are passed over.
pub(crate) fn hex_bytes(heap: Global, text: &str) -> Result<Vec<u8>, Failure> {
    let digits: Vec<u8> = text.bytes().filter(|b| *b != b' ').collect(heap)?;
    Ok(hex::decode(heap, digits.as_slice())?)
}
