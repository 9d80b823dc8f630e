//! Parts of a text. It is bytes and no `str`, as a file of cases may hold any.

/// What stands before the first mark, all where there is none, and what stands after it.
pub fn cut(text: &[u8], mark: u8) -> (&[u8], &[u8]) {
    match text.iter().position(|byte| *byte == mark) {
        Some(i) => (&text[..i], &text[i + 1..]),
        None => (text, &text[text.len()..]),
    }
}

/// The first ones, at most so many.
pub fn front<T>(all: &[T], count: usize) -> &[T] {
    all.get(..count).unwrap_or(all)
}

/// Those from start on, none past the end.
pub fn rest<T>(all: &[T], start: usize) -> &[T] {
    all.get(start..).unwrap_or(&[])
}
