// The headers of lists, and what is said of a wrong one, for people: what was read, what was expected, and the usual reason where one is seen.
use crate::voice::{Shown, Voice};

// The first line, without a CR before its LF; all that was kept where it has no LF.
fn first_line(first: &[u8]) -> &[u8] {
    match first.iter().position(|b| *b == b'\n') {
        None => first,
        Some(end) => {
            let line = &first[..end];
            line.strip_suffix(b"\r").unwrap_or(line)
        }
    }
}

// What is usually wrong with an input that begins so, and has this first line.
fn usual_reason(first: &[u8], line: &[u8]) -> Option<&'static str> {
    if first.is_empty() {
        return Some("the input is empty");
    }
    if first.starts_with(b"\xef\xbb\xbf") {
        return Some("it begins with a byte order mark: save the list as plain text, without one");
    }
    if first.starts_with(b"\xff\xfe") || first.starts_with(b"\xfe\xff") {
        return Some("it is UTF-16: save the list as plain text (ASCII or UTF-8)");
    }
    if line.contains(&b'"') {
        return Some("it has quotes: save the list without them");
    }
    if line.contains(&b';') {
        return Some("it has semicolons: separate the fields by commas");
    }
    if line.contains(&b' ') {
        return Some("it has blanks: write the header without them");
    }
    // The line ends with a LF that no CR stands before.
    if first.get(line.len()) == Some(&b'\n') {
        return Some(
            "its lines end with LF alone, and CRLF is wanted: sed 's/\\r*$/\\r/;$a\\' LIST",
        );
    }
    None
}

// Says what is wrong with the header that an input began with.
pub fn say_wrong<P: Print>(voice: &Voice<'_, P>, first: &[u8]) {
    let line = first_line(first);
    let shown = Shown(line);
    voice.say("the first line is not the header of a list that it answers");
    voice.add(format_args!("read:     {shown}"));
    let mut before = "expected:";
    for kind in voice.desk.kinds() {
        let header = Shown(kind.header());
        voice.add(format_args!("{before} {header}"));
        before = "      or:";
    }
    if let Some(reason) = usual_reason(first, line) {
        voice.add(reason);
    }
}
