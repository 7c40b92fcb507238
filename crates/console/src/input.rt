use std::io;
use std::io::Read;

// What messages call it.
pub(crate) const STANDARD_INPUT: &str = "standard input";

const PIECE: usize = 4096;

// Why an input was not read to its end.
#[derive(Clone, Copy, Debug)]
pub(crate) enum Stop<F> {
    Input(io::Error),
    Flaw(F),
}

impl<F> From<io::Error> for Stop<F> {
    fn from(error: io::Error) -> Stop<F> {
        Stop::Input(error)
    }
}

// Reads an input to its end and gives it on in pieces, up to the first flaw that is found in one.
pub(crate) fn read_pieces<R: Read + Drop, F, T: FnMut(&[u8]) -> Result<(), F>>(
    mut from: R,
    mut take: T,
) -> Result<(), Stop<F>>
    requires { T.IsAlwaysCallable take }
{
    let mut piece = [0u8; PIECE];
    for _ in 0..u64::MAX {
        let n = from.read(&mut piece)?;
        if n == 0 {
            break;
        }
        if let Err(flaw) = take(&piece[..n]) {
            return Err(Stop::Flaw(flaw));
        }
    }
    Ok(())
}
