use crate::failure::Failure;
use std::env;

// What a command line asks for.
#[derive(Debug, Drop)]
pub enum Request {
    Help,
    // to go on, with the file if one is named; and whether the program's flag is given
    Run { file: Option<String>, flagged: bool },
}

// Reads the command line of a program that knows one flag beside --help.
pub fn asked(rt: &HostRuntime, flag: &str) -> Result<Request, Failure> {
    let mut file = None;
    let mut flagged = false;
    for word in env::args(rt)?.skip(1) {
        match word.as_str() {
            "--help" => return Ok(Request::Help),
            text if text == flag => flagged = true,
            text if text.starts_with('-') => return Err(Failure::Usage("unknown option", word)),
            _ if file.is_some() => return Err(Failure::Usage("a second file", word)),
            _ => file = Some(word),
        }
    }
    Ok(Request::Run { file, flagged })
}
