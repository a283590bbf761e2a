//! The command line: what its words ask for, if they are longer or more than a system passes to a
//! program. tests/rows has plainer ones.
use evc_cli::{Task, request, status_of};
use std::alloc::{AllocError, Global};
use std::test::Fail;

/// Adds a word for each text.
fn add_words(alloc: Global, words: &mut Vec<String>, texts: &[&str]) -> Result<(), AllocError> {
    for text in texts {
        words.push(String::from_str(alloc, text)?)?;
    }
    Ok(())
}

/// Returns the task that the words ask for, without its file, and the exit status of a line that
/// gives none.
fn answer(alloc: Global, texts: &[&str]) -> Result<(Option<Task>, u8), AllocError> {
    let mut words = Vec::new(alloc);
    add_words(alloc, &mut words, texts)?;
    Ok(match request(alloc, words.as_slice()) {
        Ok(request) => (Some(request.task), 0),
        Err(error) => (None, status_of(&error)),
    })
}

/// Returns a number with so many leading zeros.
fn seven_behind(alloc: Global, zeros: usize) -> Result<String, AllocError> {
    let mut text = String::new(alloc);
    for _ in 0..zeros {
        text.push('0')?;
    }
    text.push('7')?;
    Ok(text)
}

#[test]
fn a_word_of_more_than_two_million_bytes(rt: HostRuntime) -> Result<(), Fail> {
    let turns = seven_behind(rt.alloc(), 2_100_000)?;
    let texts = ["evc", "run", "--turns", turns.as_str()];
    assert!(rt; answer(rt.alloc(), &texts)? == (Some(Task::Run(7)), 0));
    Ok(())
}

/// Returns more than two million words, after the one that names a command.
fn many_words(alloc: Global) -> Result<Vec<&'static str>, AllocError> {
    let mut texts = vec![in alloc; "evc", "check"]?;
    for _ in 0..2_100_000 {
        texts.push("x")?;
    }
    Ok(texts)
}

#[test]
fn more_than_two_million_words(rt: HostRuntime) -> Result<(), Fail> {
    let texts = many_words(rt.alloc())?;
    assert!(rt; answer(rt.alloc(), texts.as_slice())? == (None, 2));
    Ok(())
}
