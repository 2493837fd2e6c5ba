// The fields of a line.
fn is_comma(b: &u8) -> bool {
    *b == b','
}

pub fn fields_in(line: &[u8]) -> usize {
    line.split(is_comma).count()
}

// The field with this number, counted from 1; empty, if the line has not so many.
pub fn field_of(line: &[u8], number: usize) -> &[u8] {
    line.split(is_comma)
        .nth(number.saturating_sub(1))
        .unwrap_or(b"")
}
