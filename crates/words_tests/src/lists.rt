//! Words in lists, and what they are read as.
use std::alloc::{AllocError, Global};
use vec_words::{Config, WordsFault, read_words};

/// Words behind a program's name.
fn words(alloc: Global, texts: &[&str]) -> Result<Vec<String>, AllocError> {
    let mut words = Vec::new(alloc);
    words.push(String::from_str(alloc, "vec_server")?)?;
    for text in texts {
        words.push(String::from_str(alloc, text)?)?;
    }
    Ok(words)
}

/// What the words behind the program's name spell.
pub(crate) fn spelled(alloc: Global, texts: &[&str]) -> Option<Config> {
    match words(alloc, texts) {
        Ok(words) => read_words(alloc, &words).ok(),
        Err(_) => None,
    }
}

/// Whether they are refused as no words of the program.
pub(crate) fn refused(alloc: Global, texts: &[&str]) -> bool {
    match words(alloc, texts) {
        Ok(words) => match read_words(alloc, &words) {
            Err(WordsFault::Words) => true,
            _ => false,
        },
        Err(_) => false,
    }
}
