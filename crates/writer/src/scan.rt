// Words of a line, and the bytes that part them.

// Whether a byte parts words.
pub(crate) fn is_blank(b: &u8) -> bool {
    matches!(b, b' ' | b'\t')
}

// The bytes from the first that is not blank.
fn trim_start(line: &[u8]) -> &[u8] {
    match line.iter().position(|b| !is_blank(b)) {
        Some(first) => &line[first..],
        None => &[],
    }
}

// The bytes up to the last that is not blank.
pub(crate) fn trim_end(line: &[u8]) -> &[u8] {
    match line.iter().rposition(|b| !is_blank(b)) {
        Some(last) => &line[..=last],
        None => &[],
    }
}

// The bytes without the blanks before the first word and behind the last.
pub(crate) fn trim(line: &[u8]) -> &[u8] {
    trim_end(trim_start(line))
}

// What stands before the first byte that is a mark, and what stands behind it, if there is one.
pub(crate) fn split_once<F: FnMut(&u8) -> bool>(text: &[u8], is_mark: F) -> Option<(&[u8], &[u8])>
    requires { F.IsAlwaysCallable is_mark }
{
    let at = text.iter().position(is_mark)?;
    Some((&text[..at], &text[at + 1..]))
}

// The first word of a line that begins with one, and the words behind it.
pub(crate) fn first_word(line: &[u8]) -> (&[u8], &[u8]) {
    let (word, rest) = split_once(line, is_blank).unwrap_or((line, &[]));
    (word, trim_start(rest))
}

// The words before the last of a line that ends with one, and that word.
pub(crate) fn last_word(line: &[u8]) -> (&[u8], &[u8]) {
    match line.iter().rposition(is_blank) {
        Some(blank) => (trim_end(&line[..blank]), &line[blank + 1..]),
        None => (&[], line),
    }
}
