// The words that a program was started with.
use relay_model::{NoMemory, Text, Texts};
use std::alloc::Global;
use std::env::{Env, FillError};

/// The longest argument that Linux passes to a program, in bytes.
const LONGEST_ARGUMENT: usize = 131_072;

/// The arguments without the program's name. They may hold any bytes.
pub fn program_words(alloc: Global, env: &impl Env) -> Result<Texts, NoMemory> {
    let mut buffer = vec![in alloc; 0; LONGEST_ARGUMENT]?;
    let mut words = Texts::new(alloc);
    for i in 1..usize::MAX {
        match env.arg(i, &mut buffer) {
            Ok(length) => words.push(Text::of(alloc, &buffer[..length])?)?,
            Err(FillError::NotPresent) => break,
            Err(FillError::TooLong) => return Err(NoMemory),
        }
    }
    Ok(words)
}
