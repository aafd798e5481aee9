// What the lines of entries are made of.
use format::Refusal;
use std::io;

// A line for an entry: what was asked, the answer, which is a count or a refusal by its number, and whether all of it is document 01's.
// `samples` has the words of a refusal too: two programs share what a library has, and a type of one for this is no plainer.
pub(crate) fn entry(
    rt: &impl Print,
    what: &str,
    answer: Result<usize, Refusal>,
    is_right: bool,
) -> io::Result<()> {
    print!(rt; "{what}: ")?;
    match answer {
        Ok(count) => print!(rt; "{count}")?,
        Err(Refusal { kind, offset }) => {
            print!(rt; "refused {}, offset {offset}", kind.number())?;
        }
    }
    let verdict = if is_right { "ok" } else { "not ok" };
    println!(rt; ", {verdict}")
}
