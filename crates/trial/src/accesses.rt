//! Accesses as text.
use std::fmt;

/// The accesses among 32 words, laid out as in Flows: p for projection or c for condition, the leaf and the
/// operation. Projections come first, then all goes by leaf, then by operation.
#[derive(Clone, Copy)]
pub struct Accesses<'a>(pub &'a [u64]);

/// Those of one channel, whose words go by operation.
fn write_channel<W: fmt::Write>(
    f: &mut fmt::Formatter<W>,
    channel: &str,
    words: &[u64],
) -> fmt::Result {
    // the bits of a word are by number
    for leaf in 0..64u32 {
        for (operation, word) in words.iter().enumerate() {
            if *word >> leaf & 1 == 1 {
                write!(f, " {channel}{leaf}.{operation}")?;
            }
        }
    }
    Ok(())
}

impl fmt::Display for Accesses<'_> {
    fn fmt<W: fmt::Write>(&self, f: &mut fmt::Formatter<W>) -> fmt::Result {
        let words = self.0;
        if words.iter().all(|word| *word == 0) {
            return f.write_str(" no accesses");
        }
        if let Some((projections, conditions)) = words.split_at_checked(16) {
            write_channel(f, "p", projections)?;
            write_channel(f, "c", conditions)?;
        }
        Ok(())
    }
}
