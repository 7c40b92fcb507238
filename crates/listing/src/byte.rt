use std::fmt;

// A byte as messages show it: the sign in quotes, or the number where the sign cannot be seen.
#[derive(Clone, Copy, PartialEq, Eq, Debug)]
pub struct ShownByte(pub u8);

impl fmt::Display for ShownByte {
    fn fmt<W: fmt::Write>(&self, f: &mut fmt::Formatter<W>) -> fmt::Result {
        let byte = self.0;
        if byte.is_ascii_graphic() {
            let sign = char::from(byte);
            write!(f, "'{sign}'")
        } else {
            write!(f, "byte 0x{byte:02x}")
        }
    }
}

#[cfg(test)]
mod tests {
    use super::*;
    use std::test::Fail;

    #[test]
    fn shows_signs_and_numbers(rt: HostRuntime) -> Result<(), Fail> {
        let sign = ShownByte(b'~').to_string(rt.alloc())?;
        assert_eq!(rt; sign.as_str(), "'~'");
        let blank = ShownByte(b' ').to_string(rt.alloc())?;
        assert_eq!(rt; blank.as_str(), "byte 0x20");
        let control = ShownByte(0x0b).to_string(rt.alloc())?;
        assert_eq!(rt; control.as_str(), "byte 0x0b");
        Ok(())
    }
}
