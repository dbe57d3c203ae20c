use std::alloc::Global;
use std::env::Args;
use std::io;
use std::io::ErrorKind;

/// How much of standard input a program reads at once.
pub const INPUT_BUFFER: usize = 131072;

/// The words behind a program's name; None where there is no memory. For words that aren't UTF-8 there is an empty one,
/// which names nothing.
pub fn words_of(alloc: Global, args: io::Result<Args>) -> Option<Vec<String>> {
    let mut words = Vec::new(alloc);
    match args {
        Ok(args) => {
            for word in args.skip(1) {
                words.push(word).ok()?;
            }
            Some(words)
        }
        Err(error) if error.kind() == ErrorKind::OutOfMemory => None,
        Err(_) => {
            words.push(String::new(alloc)).ok()?;
            Some(words)
        }
    }
}
