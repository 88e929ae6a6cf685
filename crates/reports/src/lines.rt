// The lines of the input, and the numbers in them.

// What a line asks for.
#[derive(Clone, Copy)]
pub enum Line<'a> {
    Report { path: &'a [u8], count: usize },
    Collect { mailbox: usize },
}

// A decimal number that fits 64 bits, with no sign before it.
pub fn number(digits: &[u8]) -> Option<usize> {
    let text = str::from_utf8(digits).ok()?;
    if text.starts_with('+') {
        return None;
    }
    text.parse().ok()
}

// What stands before the last space, and the number behind it.
pub fn numbered(text: &[u8]) -> Option<(&[u8], usize)> {
    let at = text.iter().rposition(|x| *x == b' ')?;
    Some((&text[..at], number(&text[at + 1..])?))
}

// What a line asks for that has no blanks around it, if it asks for anything.
pub fn parse_line(text: &[u8]) -> Option<Line<'_>> {
    if let Some(digits) = text.strip_prefix(b"collect ") {
        let mailbox = number(digits)?;
        return Some(Line::Collect { mailbox });
    }
    let (path, count) = numbered(text.strip_prefix(b"report ")?)?;
    Some(Line::Report { path, count })
}
