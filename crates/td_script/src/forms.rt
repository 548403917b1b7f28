//! What one line is.
ghost use Rattle.std.specs.Prelude.{◌≡◌, IfSome};
ghost use Rattle.std.specs.Option.{option_map};
ghost use Rattle.std.specs.List.{list_all};
ghost use Rattle.td_script.specs.Script.{is_blank, without_return};
ghost use Rattle.td_script.specs.Reading.{shown, parted_at, front_of, without_blanks, session_of, statement_of, is_comment, form_of, kind_of, HasCount};

/// What a line is. A statement's text lies in the line.
#[derive(Clone, Copy)]
pub enum Kind<'a> {
    Empty,
    Comment,
    Phase,
    Statement(u32, &'a [u8]),
}

// What stands before the first such byte, and what after it.
fn parted(text: &[u8], byte: u8) -> Option<(&[u8], &[u8])>
    ensures { option_map (λ p. (p.0.now, p.1.now)) result ≡ parted_at byte text.now }
{
    for (i, b) in text.iter().enumerate() {
        if *b == byte {
            return Some((&text[..i], &text[i + 1..]));
        }
    }
    None
}

/// The line in front, without its line feed, and what follows it.
#[tactic(auto, unfolding(crate::specs::Reading::front_of))]
pub fn first_line(bytes: &[u8]) -> (&[u8], &[u8])
    ensures { (result.0.now, result.1.now) ≡ front_of bytes.now }
{
    match parted(bytes, b'\n') {
        Some((line, after)) => (line, after),
        None => (bytes, &[]),
    }
}

// A line without the carriage return at its end.
fn without_return(line: &[u8]) -> &[u8]
    ensures { result.now ≡ without_return line.now }
{
    match line.strip_suffix(b"\r") {
        Some(front) => front,
        None => line,
    }
}

fn is_blank(byte: u8) -> bool
    ensures { result ≡ is_blank byte }
{
    byte == b' ' || byte == b'\t'
}

fn are_blanks(line: &[u8]) -> bool
    ensures { result ≡ list_all is_blank line.now }
{
    line.iter().all(|b| is_blank(*b))
}

fn is_comment(line: &[u8]) -> bool
    ensures { result ≡ is_comment line.now }
{
    match line {
        [first, ..] => *first == b'#',
        [] => false,
    }
}

// What follows the blanks in front.
fn without_blanks(text: &[u8]) -> &[u8]
    ensures { result.now ≡ without_blanks text.now }
{
    for (i, b) in text.iter().enumerate() {
        if !is_blank(*b) {
            return &text[i..];
        }
    }
    &[]
}

// The session that one or two digits spell.
fn session(digits: &[u8]) -> Option<u32>
    ensures { result ≡ session_of digits.now }
{
    match digits {
        [ones] if *ones >= b'1' && *ones <= b'9' => Some(u32::from(*ones - b'0')),
        [tens, ones] if *tens >= b'1' && *tens <= b'9' && *ones >= b'0' && *ones <= b'9' => {
            let session = u32::from(*tens - b'0') * 10 + u32::from(*ones - b'0');
            if session <= 64 { Some(session) } else { None }
        }
        _ => None,
    }
}

#[tactic(auto, unfolding(crate::specs::Reading::statement_of))]
fn statement(line: &[u8]) -> Option<Kind<'_>>
    ensures { option_map shown result ≡ statement_of line.now }
{
    let (digits, rest) = parted(line, b':')?;
    let session = session(digits)?;
    Some(Kind::Statement(session, without_blanks(rest)))
}

// What a line without its carriage return is.
#[tactic(auto, unfolding(crate::specs::Reading::form_of))]
fn form(line: &[u8]) -> Option<Kind<'_>>
    ensures { option_map shown result ≡ form_of line.now }
{
    if are_blanks(line) {
        Some(Kind::Empty)
    } else if is_comment(line) {
        Some(Kind::Comment)
    } else if line == b"----".as_slice() {
        Some(Kind::Phase)
    } else {
        statement(line)
    }
}

/// What a line without its line feed is.
pub fn line_kind(line: &[u8]) -> Option<Kind<'_>>
    ensures { option_map shown result ≡ kind_of line.now }
{
    match str::from_utf8(line) {
        Ok(_) => form(without_return(line)),
        Err(_) => None,
    }
}
