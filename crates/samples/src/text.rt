// What the lines are made of. Each part brings the space that parts it from what stands before it.
use format::Refusal;
use std::fmt;

// Bytes, each as two hex digits.
#[derive(Drop)]
pub(crate) struct Hex<'a>(pub(crate) &'a [u8]);

impl fmt::Display for Hex<'_> {
    fn fmt<W: fmt::Write>(&self, f: &mut fmt::Formatter<W>) -> fmt::Result {
        for byte in self.0 {
            write!(f, " {byte:02x}")?;
        }
        Ok(())
    }
}

// Bytes that are read.
#[derive(Drop)]
pub(crate) struct Input<'a>(pub(crate) &'a [u8]);

impl fmt::Display for Input<'_> {
    fn fmt<W: fmt::Write>(&self, f: &mut fmt::Formatter<W>) -> fmt::Result {
        if self.0.is_empty() {
            f.write_str(" no bytes")
        } else {
            write!(f, "{}", Hex(self.0))
        }
    }
}

// Values or keys.
#[derive(Drop)]
pub(crate) struct Numbers<'a, T>(pub(crate) &'a [T]);

impl<T: fmt::Display> fmt::Display for Numbers<'_, T> {
    fn fmt<W: fmt::Write>(&self, f: &mut fmt::Formatter<W>) -> fmt::Result {
        if self.0.is_empty() {
            return f.write_str(" none");
        }
        for number in self.0 {
            write!(f, " {number}")?;
        }
        Ok(())
    }
}

// A refusal by its number, as the papers have it; the library's own `Display` tells it in words.
#[derive(Drop)]
pub(crate) struct Refused(pub(crate) Refusal);

impl fmt::Display for Refused {
    fn fmt<W: fmt::Write>(&self, f: &mut fmt::Formatter<W>) -> fmt::Result {
        let Refused(Refusal { kind, offset }) = self;
        write!(f, " refused {}, offset {offset}", kind.number())
    }
}

// A count, or a refusal. `replay` tells both without the space, in its `text`: one type for two programs is no plainer.
#[derive(Drop)]
pub(crate) struct Answer(pub(crate) Result<usize, Refusal>);

impl fmt::Display for Answer {
    fn fmt<W: fmt::Write>(&self, f: &mut fmt::Formatter<W>) -> fmt::Result {
        match self.0 {
            Ok(count) => write!(f, " {count}"),
            Err(refusal) => write!(f, "{}", Refused(refusal)),
        }
    }
}
