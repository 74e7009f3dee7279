//! The words of the command line, as the host gives them.
use std::alloc::AllocError;
use std::env::FillError;
use std::rt::Env;

/// The most bytes that a word of the command line has: the kernel passes no longer one (execve(2)).
const MOST_BYTES: usize = 131_072;

/// The words of the command line that the host gives, the program's name first. What is no UTF-8 in a word is
/// read as U+FFFD, and so is a word that is too long; no key, no option and no number has that. It fails only
/// if memory runs out.
pub fn words_given(rt: &(impl Env + AllocGlobal)) -> Result<Vec<String>, AllocError> {
    let mut words = Vec::new(rt.alloc());
    let mut bytes = Vec::new(rt.alloc());
    bytes.resize(MOST_BYTES, 0u8)?;
    for index in 0..usize::MAX {
        match rt.arg(index, bytes.as_mut_slice()) {
            Ok(count) => words.push(String::from_utf8_lossy(rt.alloc(), &bytes[..count])?)?,
            Err(FillError::NotPresent) => break,
            Err(FillError::TooLong) => words.push(String::from_str(rt.alloc(), "\u{FFFD}")?)?,
        }
    }
    Ok(words)
}
